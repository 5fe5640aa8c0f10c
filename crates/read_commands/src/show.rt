//! `show`: prints the leaves of a document with their known ancestries, the winner first.
ghost use Rattle.std.specs.Prelude.{◌≡◌, ◌++◌, true, false, OnOk};
ghost use Rattle.std.specs.List.{flat_map, list_all};
ghost use Rattle.std.specs.Option.{option_copied, option_map_or};
ghost use Rattle.rev_tree.specs.InOrder.{first_of};
ghost use Rattle.rev_tree.specs.Tree.{has, leaves};
ghost use Rattle.command_api.specs.Texts.{text_of_any};
ghost use Rattle.json_values.specs.LineView.{line_view};
ghost use Rattle.read_commands.specs.Show.{head_line, leaf_line, leaf_text, show_text};

use command_api::{
    Command, has_only_members, name_member, push_count, push_json, push_rev, push_revs, read_id,
    text_member,
};
use json_values::Line;
use rev_core::Rev;
use rev_tree::{Content, Tree};
use script_databases::{Databases, Refusal};
use std::alloc::{AllocError, Global};
use std::sync::Wait;
use std::thread::Threads;

/// The parameters of a `show` line.
#[derive(Drop)]
pub struct Show<'a> {
    pub db: &'a str,
    pub id: &'a str,
}

impl<'v, 'a> Command<&'v Line<'a>> for Show<'v> {
    ghost use Rattle.read_commands.specs.Show.{ShowAsk, Shows, show_asked, show_in};

    ghost seen = { λ line. line_view line.now };

    ghost Ask = { ShowAsk };

    ghost asked = { show_asked };

    ghost asked_in = { show_in };

    ghost answers = { Shows };

    fn read(line: &'v Line<'a>) -> Option<Show<'v>> {
        let value = line.value();
        let db = name_member(value, "db")?;
        let id = text_member(value, "id")?;
        if !has_only_members(value, &["do", "db", "id"]) {
            return None;
        }
        Some(Show { db, id })
    }

    /// Runs `show`.
    fn serve<H: Threads + Wait + Sync>(
        &self,
        _rt: &H,
        alloc: Global,
        databases: &mut Databases,
        answer: &mut Vec<u8>,
    ) -> Result<(), Refusal> {
        let Some(peer) = databases.find(self.db) else {
            return Err(Refusal::NoDatabase);
        };
        let id = read_id(alloc, self.id)?;
        let Some(tree) = peer.db().tree(&id) else {
            return Err(Refusal::NoSuchDocument);
        };
        print(alloc, answer, id.text(), tree)?;
        Ok(())
    }
}

/// Prints the winner and all leaves of a document.
fn print(alloc: Global, answer: &mut Vec<u8>, id: &str, tree: &Tree) -> Result<(), AllocError>
    ensures { OnOk result (answer.new.items ≡ answer.old.items ++ show_text id.now tree.now) }
{
    let leaves = tree.leaves(alloc)?;
    push_head(answer, id, tree, leaves.as_slice())?;
    push_leaves(alloc, answer, tree, leaves.as_slice())
}

/// Prints the first line of `show`. The parameter `all` has the leaves of the tree.
fn push_head(answer: &mut Vec<u8>, id: &str, tree: &Tree, all: &[Rev]) -> Result<(), AllocError>
    requires { all.now ≡ leaves tree.now }
    ensures { OnOk result (answer.new.items ≡ answer.old.items ++ head_line id.now tree.now) }
{
    answer.extend_from_slice(b"doc ")?;
    push_json(answer, id)?;
    answer.extend_from_slice(b" winner ")?;
    push_winner(answer, all)?;
    answer.extend_from_slice(b" leaves ")?;
    push_count(answer, all.len())?;
    answer.extend_from_slice(b" revs ")?;
    push_count(answer, tree.rev_count())?;
    answer.push(b'\n')?;
    Ok(())
}

/// Prints the winner, which is the first leaf. Every tree of a database has a winner.
fn push_winner(answer: &mut Vec<u8>, all: &[Rev]) -> Result<(), AllocError>
    ensures { OnOk result (answer.new.items ≡ answer.old.items ++ text_of_any (first_of all.now)) }
{
    match all.first() {
        Some(rev) => push_rev(answer, rev),
        None => Ok(()),
    }
}

/// Prints revisions of the tree, one per line.
fn push_leaves(
    alloc: Global,
    answer: &mut Vec<u8>,
    tree: &Tree,
    leaves: &[Rev],
) -> Result<(), AllocError>
    requires { list_all (has tree.now) leaves.now ≡ true }
    ensures { OnOk result (answer.new.items ≡ answer.old.items ++ flat_map (leaf_line tree.now) leaves.now) }
{
    for leaf in leaves {
        push_leaf(alloc, answer, tree, leaf)?;
    }
    Ok(())
}

/// Prints a revision of the tree.
fn push_leaf(alloc: Global, answer: &mut Vec<u8>, tree: &Tree, leaf: &Rev) -> Result<(), AllocError>
    requires { has tree.now leaf.now ≡ true }
    ensures { OnOk result (answer.new.items ≡ answer.old.items ++ leaf_line tree.now leaf.now) }
{
    let Some(rev_info) = tree.rev_info(alloc, *leaf)? else {
        unreachable!()
    };
    let deleted = is_deletion(rev_info.content);
    push_leaf_text(answer, leaf, deleted, rev_info.ancestry.revs())
}

/// Whether the content of a revision is known and has the deleted flag.
fn is_deletion(content: Option<&Content>) -> bool
    ensures { result ≡ option_map_or (λ c. c.deleted) (option_copied content.entry) false }
{
    match content {
        Some(content) => content.deleted(),
        None => false,
    }
}

/// Prints a leaf, whether the leaf is deleted, and the leaf's ancestry.
fn push_leaf_text(
    answer: &mut Vec<u8>,
    leaf: &Rev,
    deleted: bool,
    ancestry: &[Rev],
) -> Result<(), AllocError>
    ensures { OnOk result (answer.new.items ≡ answer.old.items ++ leaf_text leaf.now deleted ancestry.now) }
{
    answer.extend_from_slice(b"leaf ")?;
    push_rev(answer, leaf)?;
    if deleted {
        answer.extend_from_slice(b" deleted ")?;
    } else {
        answer.extend_from_slice(b" live ")?;
    }
    push_revs(answer, ancestry)?;
    answer.push(b'\n')?;
    Ok(())
}
