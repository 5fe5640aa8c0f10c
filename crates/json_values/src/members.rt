//! The members of an object while the object is read, in byte order of the members' names.
ghost use Rattle.std.specs.Prelude.{◌≡◌, ◌<◌, ◌≤◌, [], length, slice_index, true, OnOk, IfOk, IfErr};
ghost use Rattle.std.specs.Ordering.{nat_cmp};
ghost use Rattle.std.specs.Cmp.Lexicographic.{slice_cmp};
ghost use Rattle.json_values.specs.Entries.{ComesLast, IsRising, IsPlaceOf, IsGapFor, MovesLast, put_entry};
ghost use Rattle.json_values.specs.Members.{entries_of};

use bumpalo::Bump;
use bumpalo::collections::into_bump_slice;
use std::alloc::{AllocError, Global};
use std::cmp::Ordering;
use std::collections::BTreeMap;
use std::mem;

/// A list of at least `FEW` members becomes a map before a member is inserted out of order.
const FEW: usize = 64;

/// The members of an object, in which each name occurs once.
#[derive(Drop)]
pub(crate) enum Members<'a, T> {
    /// A list of members, for objects with few members, and for members that came in order of their names.
    Listed(Vec<(&'a str, T), &'a Bump>),
    /// A map of members. The map replaces a list of at least `FEW` members when the next member is out of order.
    Mapped(BTreeMap<&'a str, T>),
}

impl<'a, T: Drop> Members<'a, T> {
    /// Creates an empty list of members with the given capacity, in an arena.
    #[inline(always)]
    pub(crate) fn new(values: &'a Bump, room: usize) -> Result<Members<'a, T>, AllocError>
        ensures { IfOk result (λ members. entries_of members ≡ []) }
    {
        Ok(Members::Listed(Vec::with_capacity(values, room)?))
    }

    /// Inserts a member. If the object already has a member with the name, this member keeps its position and gets the
    /// new value.
    #[inline(always)]
    pub(crate) fn put(
        &mut self,
        alloc: Global,
        values: &'a Bump,
        name: &'a str,
        value: T,
    ) -> Result<(), AllocError>
        requires { IsRising (entries_of self.old) }
        ensures { OnOk result (entries_of self.new ≡ put_entry name.entry value (entries_of self.old)) }
    {
        if self.is_full(name) {
            self.go_over(alloc, values)?;
        }
        match self {
            Members::Listed(entries) => put_listed(entries, name, value),
            Members::Mapped(map) => put_mapped(map, name, value),
        }
    }

    /// Whether a list of members must become a map before a member is inserted. A list becomes a map if it has at least
    /// `FEW` members and the new name is not greater than the list's last name.
    #[inline(always)]
    fn is_full(&self, name: &str) -> bool
        requires { IsRising (entries_of self.now) }
    {
        match self {
            Members::Listed(entries) => entries.len() >= FEW && !comes_last(entries, name),
            Members::Mapped(_) => false,
        }
    }

    /// Converts the list to a map.
    #[inline(never)]
    fn go_over(&mut self, alloc: Global, values: &'a Bump) -> Result<(), AllocError>
        requires { IsRising (entries_of self.old) }
        ensures { OnOk result (entries_of self.new ≡ entries_of self.old) }
    {
        if let Members::Listed(entries) = self {
            let entries = mem::replace(entries, Vec::new(values));
            *self = Members::Mapped(map_of(alloc, entries)?);
        }
        Ok(())
    }

    /// Returns the members in byte order of their names, as a slice in the arena.
    #[inline(always)]
    pub(crate) fn into_slice(self, values: &'a Bump) -> Result<&'a [(&'a str, T)], AllocError>
        ensures { IfOk result (λ v. v.now ≡ entries_of self.entry) }
    {
        match self {
            Members::Listed(entries) => Ok(into_bump_slice(entries)),
            Members::Mapped(map) => Ok(into_bump_slice(map.into_iter().collect(values)?)),
        }
    }
}

/// Creates a map from members that are in order of their names.
fn map_of<'a, T: Drop>(
    alloc: Global,
    entries: Vec<(&'a str, T), &'a Bump>,
) -> Result<BTreeMap<&'a str, T>, AllocError>
    requires { IsRising entries.items }
    ensures { IfOk result (λ map. map.entries ≡ entries.entry.items) }
{
    let mut map = BTreeMap::new(alloc);
    for (name, value) in entries {
        put_mapped(&mut map, name, value)?;
    }
    Ok(map)
}

/// Inserts a member into a map.
#[inline(never)]
fn put_mapped<'a, T: Drop>(
    map: &mut BTreeMap<&'a str, T>,
    name: &'a str,
    value: T,
) -> Result<(), AllocError>
    ensures { OnOk result (map.new.entries ≡ put_entry name.entry value map.old.entries) }
{
    map.insert(name, value)?;
    Ok(())
}

/// Inserts a member into a list. The call appends the member, and then moves it to its position.
#[inline(always)]
fn put_listed<'a, T: Drop>(
    entries: &mut Vec<(&'a str, T), &'a Bump>,
    name: &'a str,
    value: T,
) -> Result<(), AllocError>
    requires { IsRising entries.old.items }
    ensures { OnOk result (entries.new.items ≡ put_entry name.entry value entries.old.items) }
{
    match place_of(entries, name) {
        Ok(place) => {
            entries[place].1 = value;
            Ok(())
        }
        Err(place) => {
            entries.push((name, value))?;
            move_last(entries, place);
            Ok(())
        }
    }
}

/// Moves the last member to the index `place`. The call repeatedly swaps this member with its predecessor. Few swaps
/// are needed, because members usually come nearly in order of their names.
#[inline(always)]
fn move_last<'a, T>(entries: &mut Vec<(&'a str, T), &'a Bump>, place: usize)
    requires { place < length entries.old.items }
    ensures { MovesLast entries.old.items place entries.new.items }
{
    let mut i = entries.len() - 1;
    while i > place {
        entries.swap(i - 1, i);
        i -= 1;
    }
}

/// Compares two names by their bytes. The comparison begins with each name's first byte, because the first bytes
/// usually differ.
#[inline(always)]
fn order_of(a: &str, b: &str) -> Ordering
    ensures { result ≡ slice_cmp nat_cmp a.now b.now }
{
    let (x, y) = (a.as_bytes(), b.as_bytes());
    if x.is_empty() || y.is_empty() {
        return a.cmp(&b);
    }
    if x[0] == y[0] {
        return order_behind(a, b);
    }
    if x[0] < y[0] {
        Ordering::Less
    } else {
        Ordering::Greater
    }
}

/// Compares two names with the same first byte. The comparison begins with each name's second byte, because the second
/// bytes usually differ.
#[inline(always)]
fn order_behind(a: &str, b: &str) -> Ordering
    requires { (0 < length a.now) × (0 < length b.now) × (slice_index a.now 0 ≡ slice_index b.now 0) }
    ensures { result ≡ slice_cmp nat_cmp a.now b.now }
{
    let (x, y) = (a.as_bytes(), b.as_bytes());
    if x.len() < 2 || y.len() < 2 {
        return a.cmp(&b);
    }
    if x[1] < y[1] {
        return Ordering::Less;
    }
    if y[1] < x[1] {
        return Ordering::Greater;
    }
    a.cmp(&b)
}

/// Whether the given name is greater than all names in the list.
#[inline(always)]
fn comes_last<T>(entries: &[(&str, T)], name: &str) -> bool
    requires { IsRising entries.now }
    ensures { result ≡ true → ComesLast name.now entries.now }
{
    if entries.is_empty() {
        return true;
    }
    match order_of(name, entries[entries.len() - 1].0) {
        Ordering::Greater => true,
        _ => false,
    }
}

/// Returns `Ok` with the index of the member that has the given name, or `Err` with the index at which to insert a
/// member with this name. The search begins at the end of the list of members, because an object's members usually come
/// nearly in order of their names.
#[inline(always)]
fn place_of<T>(entries: &[(&str, T)], name: &str) -> Result<usize, usize>
    requires { IsRising entries.now }
    ensures there { IfOk result (λ i. i < length entries.now × IsPlaceOf name.now entries.now i) }
    ensures absent { IfErr result (λ i. i ≤ length entries.now × IsGapFor name.now entries.now i) }
{
    let mut end = entries.len();
    while end > 0 {
        match order_of(name, entries[end - 1].0) {
            Ordering::Greater => return Err(end),
            Ordering::Equal => return Ok(end - 1),
            Ordering::Less => end -= 1,
        }
    }
    Err(0)
}
