//! Counts the documents, leaves and revisions of a database.
ghost use Rattle.std.specs.Prelude.{◌≡◌, ◌++◌, ◌∷◌, [], ◌≤◌, List, IfOk, OnOk, OnErr, map};
ghost use Rattle.rev_tree.specs.Tree.{TreeValue};
ghost use Rattle.couch_base.specs.Database.{tree_of};
ghost use Rattle.repl_inspect.specs.Censuses.{census_of, trees};

use crate::conflicts::live;
use crate::counting::{plus, plus_if};
use crate::trees::tree_or;
use couch_base::{Database, Row};
use rev_tree::Tree;
use std::alloc::{AllocError, Global};

/// The maximum number of feed rows in one page that `census_of` reads.
const PAGE: u64 = 1000;

/// The counts of documents, leaves and revisions in a set of documents. Each count is capped at 9,007,199,254,740,991.
#[derive(Clone, Copy, Debug, PartialEq, Eq)]
pub struct Census {
    /// The number of documents, including deleted ones.
    pub documents: u64,
    /// The number of documents without a live leaf.
    pub deleted: u64,
    /// The number of documents in conflict: documents with two or more live leaves.
    pub conflicts: u64,
    /// The number of leaves.
    pub leaves: u64,
    /// The number of revisions.
    pub revisions: u64,
}

impl Census {
    /// Returns the counts of an empty set of documents.
    pub fn none() -> Census
        ensures { result ≡ census_of [] }
    {
        Census {
            documents: 0,
            deleted: 0,
            conflicts: 0,
            leaves: 0,
            revisions: 0,
        }
    }

    /// Adds a document, given as a tree of revisions, to the counts of this `Census`. If an allocation fails, the
    /// counts stay unchanged.
    pub fn add(&mut self, alloc: Global, tree: &Tree) -> Result<(), AllocError>
        ensures ok { OnOk result ((earlier : List TreeValue) → self.old ≡ census_of earlier
            → self.new ≡ census_of (earlier ++ tree.now ∷ [])) }
        ensures err { OnErr result (self.new ≡ self.old) }
    {
        let live = live(alloc, tree)?.len();
        self.documents = plus(self.documents, 1);
        self.deleted = plus_if(self.deleted, live == 0);
        self.conflicts = plus_if(self.conflicts, live >= 2);
        self.leaves = plus(self.leaves, tree.leaf_count() as u64);
        self.revisions = plus(self.revisions, tree.rev_count() as u64);
        Ok(())
    }
}

/// Counts the documents, leaves and revisions of a database. The call reads the database's feed in pages.
pub fn census_of(alloc: Global, database: &Database) -> Result<Census, AllocError>
    ensures { IfOk result (λ c. c ≡ census_of (trees database.now)) }
{
    let goal = database.update_seq();
    let mut census = Census::none();
    let mut since = 0;
    while since < goal {
        let page = database.page_due(alloc, since, goal, PAGE, None)?;
        add_rows(alloc, database, page.rows(), &mut census)?;
        since = page.hi();
    }
    Ok(census)
}

/// Adds the documents of feed rows to a `Census`, which counts documents, leaves and revisions.
fn add_rows(
    alloc: Global,
    database: &Database,
    rows: &[Row],
    census: &mut Census,
) -> Result<(), AllocError>
    ensures { OnOk result ((earlier : List TreeValue) → census.old ≡ census_of earlier
        → census.new ≡ census_of (earlier ++ map (λ r. tree_of database.now.docs r.id) rows.now)) }
{
    let none = Tree::new(alloc);
    for row in rows {
        census.add(alloc, tree_or(database, row.id(), &none))?;
    }
    Ok(())
}
