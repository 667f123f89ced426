//! Which definitions each block has thunks for.
//!
//! The objects of a block are looked at one after the other, and of each the symbols that branches of limited range go to. A
//! definition that may be too far away gets the stamp of the block, so that it is taken once however many name it; the set is
//! sorted when the block is done.

ghost use Rattle.std.specs.Prelude.{◌≡◌, ◌≤◌, ◌<◌, ◌+◌, ◌^◌, ◌==◌, ◌&&◌, ◌||◌, ℕ, Bool, List, [], true, false, IfOk, OnOk, Some, filter, length, map, position, replicate, slice_index};
ghost use Rattle.std.specs.List.{enumerate_from, list_any, range_with_len};
ghost use Rattle.std.specs.List.Sorted.{IsNonDecreasingBy, IsPermutation};
ghost use Rattle.lk_link.specs.Flags.{has_flag};
ghost use Rattle.lk_link.specs.Marks.{is_marked};
ghost use Rattle.lk_link.specs.declared.symbol.InputSymbol.{InputSymbol};
ghost use Rattle.lk_link.specs.WellFormed.{IsWellFormed};
ghost use Rattle.lk_thunks.specs.Homes.{home_numbers};
ghost use Rattle.lk_thunks.specs.Noting.{AreElsewhere, AreFresh, AreNoted, planning_of};
ghost use Rattle.lk_thunks.specs.SetLaws.{IsPlaceFor, IsRising};
ghost use Rattle.lk_thunks.specs.ThunkSets.{flags_at, home_of, is_in_window, is_indirect, is_needed_for, needs, needs_thunk, sets_of, thunk_set};

use crate::blocks::{Block, objects_of};
use crate::homes::{number_at, range_told};
use lk_link::{FileId, InputSymbol, LinkInput, List, SymbolId, ValueFlags};
use lk_live::{Live, primary_references};
use std::alloc::{AllocError, Global};
use std::fmt;
use std::marker::Model;

/// A block's thunks.
#[derive(Drop)]
pub struct ThunkBlock {
    /// The definitions that it has thunks for, in rising order, each once.
    pub symbols: List<SymbolId>,
}

/// As `ThunkBlock with 3 thunks`.
impl fmt::Debug for ThunkBlock {
    ghost use Rattle.std.specs.Prelude.{Some, codes, ◌++◌, length};
    ghost use Rattle.std.specs.Fmt.{decimal};

    ghost debug_output = { λ block. Some (codes "ThunkBlock with " ++ decimal (length block.symbols) ++ codes " thunks") };

    fn fmt<W: fmt::Write>(&self, f: &mut fmt::Formatter<W>) -> fmt::Result {
        let count = self.symbols.len();
        write!(f, "ThunkBlock with {count} thunks")
    }
}

impl ThunkBlock {
    /// The place of a definition's thunk among the block's, if it has one. Takes logarithmic time.
    pub fn place_of(&self, definition: SymbolId) -> Option<usize>
        requires { IsRising self.now.symbols }
        ensures { result ≡ position (λ s. s == definition) self.now.symbols }
    {
        let symbols = self.symbols.as_slice();
        let place = place_for(symbols, definition);
        if place >= symbols.len() {
            return None;
        }
        let found = symbols[place].as_u32();
        if found == definition.as_u32() {
            Some(place)
        } else {
            None
        }
    }
}

/// Where a symbol stands or would stand among rising ones.
fn place_for(symbols: &[SymbolId], definition: SymbolId) -> usize
    requires { IsRising symbols.now }
    ensures { IsPlaceFor symbols.now definition result }
{
    let mut low = 0;
    let mut high = symbols.len();
    while low < high {
        let middle = low + (high - low) / 2;
        if symbols[middle].as_u32() < definition.as_u32() {
            low = middle + 1;
        } else {
            high = middle;
        }
    }
    low
}

/// Takes in the definitions that a block has thunks for (libwild: `ThunkBlockBuilder`). Contracts see the list of them.
#[derive(Drop)]
pub struct ThunkBlockBuilder {
    symbols: Vec<SymbolId>,
}

impl Model for ThunkBlockBuilder {
    ghost use Rattle.std.specs.Prelude.{List, ℕ};

    ghost Value = { List ℕ };

    ghost view = { λ a. a.symbols.items };
}

impl ThunkBlockBuilder {
    /// No definitions; takes no memory.
    pub fn new(alloc: Global) -> ThunkBlockBuilder
        ensures { result ≡ [] }
    {
        ThunkBlockBuilder {
            symbols: Vec::new(alloc),
        }
    }

    /// The definitions in rising order.
    fn build(self) -> Result<ThunkBlock, AllocError>
        ensures { (stamp : ℕ) (test : ℕ → Bool) (stamps : List ℕ) → AreNoted stamp test stamps self
            → IfOk result (λ block. block.symbols ≡ filter test (range_with_len 0 (length stamps))) }
    {
        let symbols = sorted(self.symbols)?;
        Ok(ThunkBlock {
            symbols: List::from_vec(symbols),
        })
    }
}

/// Symbols in rising order.
fn sorted(symbols: Vec<SymbolId>) -> Result<Vec<SymbolId>, AllocError>
    ensures rising { IfOk result (λ all. IsNonDecreasingBy (λ (s : ℕ). s) all.items) }
    ensures kept { IfOk result (λ all. IsPermutation symbols.items all.items) }
{
    let mut symbols = symbols;
    symbols.sort_by_key(|symbol| symbol.as_u32())?;
    Ok(symbols)
}

/// What thunks are planned by.
#[derive(Clone, Copy)]
pub(crate) struct Planner<'a> {
    pub(crate) link: &'a LinkInput,
    pub(crate) live: &'a Live,
    /// How far a branch is taken to reach, in bytes.
    pub(crate) range: u64,
    /// Where the primary bytes of each file begin and end, by the file's number.
    pub(crate) ranges: &'a [(FileId, u64, u64)],
    /// In which file each symbol is at home.
    pub(crate) homes: &'a [u32],
    /// For each symbol whether it is in the primary part and a live section of another part names it where a thunk may stand in.
    pub(crate) elsewhere: &'a [bool],
}

/// An object whose symbols are looked at for a block.
#[derive(Clone, Copy)]
pub(crate) struct BlockUser<'a> {
    by: &'a Planner<'a>,
    /// The stamp of the block.
    stamp: u32,
    /// Where the object's primary bytes begin and end.
    object: (FileId, u64, u64),
}

/// Whether a flag is among some.
fn has_flag(flags: ValueFlags, one: ValueFlags) -> bool
    ensures { result ≡ has_flag one.0 flags.0 }
{
    flags.0 & one.0 == one.0
}

/// The flags of a symbol; none of one that isn't there.
fn flags_at(live: &Live, symbol: SymbolId) -> ValueFlags
    ensures { result.0 ≡ flags_at live.now symbol }
{
    match live.flags.as_slice().get(symbol.as_usize()) {
        Some(flags) => *flags,
        None => ValueFlags(0),
    }
}

/// Whether it is known only when the program runs where branches to a symbol go.
fn is_indirect(live: &Live, symbol: SymbolId) -> bool
    ensures { result ≡ is_indirect live.now symbol }
{
    let flags = flags_at(live, symbol);
    has_flag(flags, ValueFlags::IFUNC) || has_flag(flags, ValueFlags::DYNAMIC)
}

/// Where the file of a symbol stands, if the symbol is in the primary part and isn't indirect.
fn home_of(by: &Planner<'_>, definition: SymbolId) -> Option<(FileId, u64, u64)>
    requires { by.now.homes.now ≡ home_numbers by.now.link.now }
    ensures { result ≡ home_of (planning_of by.now) definition }
{
    if is_indirect(by.live, definition) {
        return None;
    }
    range_told(by.ranges, number_at(by.homes, definition.as_usize()))
}

/// Whether all branches of an object reach a definition by themselves, as far as the planning knows.
fn is_in_window(by: &Planner<'_>, object: (FileId, u64, u64), definition: SymbolId) -> bool
    requires { by.now.homes.now ≡ home_numbers by.now.link.now }
    ensures { result ≡ is_in_window (planning_of by.now) object definition }
{
    match home_of(by, definition) {
        Some(home) => {
            let called = has_flag(flags_at(by.live, definition), ValueFlags::PLT);
            let begin = if called { 0 } else { home.1 };
            object.2.max(home.2).saturating_sub(object.1.min(begin)) < by.range
        }
        None => object.2 < by.range,
    }
}

/// Whether an object needs a thunk for what stands for a symbol of its file.
fn needs(
    by: &Planner<'_>,
    object: (FileId, u64, u64),
    number: SymbolId,
    symbol: &InputSymbol,
) -> bool
    requires { by.now.homes.now ≡ home_numbers by.now.link.now }
    ensures { result ≡ needs (planning_of by.now) object (number, symbol.now) }
{
    has_flag(flags_at(by.live, number), ValueFlags::HAS_RANGE_LIMITED_REL)
        && !is_in_window(by, object, symbol.def.unwrap_or(number))
}

/// Takes a definition into a set, if it is wanted there and hasn't the set's stamp already.
fn note(
    set: &mut Vec<SymbolId>,
    stamps: &mut [u32],
    stamp: u32,
    definition: SymbolId,
    wanted: bool,
) -> Result<(), AllocError>
    ensures count { length stamps.new ≡ length stamps.old }
    ensures noted { (test : ℕ → Bool) → AreNoted stamp test stamps.old set.old.items
        → OnOk result (AreNoted stamp (λ d. test d || (wanted && (definition == d))) stamps.new set.new.items) }
{
    let place = definition.as_usize();
    if wanted && place < stamps.len() && stamps[place] != stamp {
        stamps[place] = stamp;
        set.push(definition)?;
    }
    Ok(())
}

/// Whether a definition has the set's stamp already.
fn is_noted(stamps: &[u32], stamp: u32, definition: SymbolId) -> bool
    ensures noted { result ≡ true → definition < length stamps.now × (slice_index stamps.now definition == stamp ≡ true) }
{
    match stamps.get(definition.as_usize()) {
        Some(own) => *own == stamp,
        None => false,
    }
}

/// Takes in what an object needs for a symbol of its file. One whose definition is taken in already isn't looked at further.
fn add_symbol(
    user: &BlockUser<'_>,
    set: &mut Vec<SymbolId>,
    stamps: &mut [u32],
    number: SymbolId,
    symbol: &InputSymbol,
) -> Result<(), AllocError>
    requires { user.now.by.now.homes.now ≡ home_numbers user.now.by.now.link.now }
    ensures count { length stamps.new ≡ length stamps.old }
    ensures noted { (test : ℕ → Bool) → AreNoted user.now.stamp test stamps.old set.old.items
        → OnOk result (AreNoted user.now.stamp (λ d. test d || is_needed_for (planning_of user.now.by.now) user.now.object d (number, symbol.now)) stamps.new set.new.items) }
{
    let definition = symbol.def.unwrap_or(number);
    if is_noted(stamps, user.stamp, definition) {
        return Ok(());
    }
    let wanted = needs(user.by, user.object, number, symbol);
    note(set, stamps, user.stamp, definition, wanted)
}

/// Takes in what an object needs for some symbols of its file, the first of them with this number.
fn add_symbols(
    user: &BlockUser<'_>,
    set: &mut Vec<SymbolId>,
    stamps: &mut [u32],
    first: u32,
    symbols: &[InputSymbol],
) -> Result<(), AllocError>
    requires homes { user.now.by.now.homes.now ≡ home_numbers user.now.by.now.link.now }
    requires numbers { first + length symbols.now < 2 ^ 32 }
    ensures count { length stamps.new ≡ length stamps.old }
    ensures noted { (test : ℕ → Bool) → AreNoted user.now.stamp test stamps.old set.old.items
        → OnOk result (AreNoted user.now.stamp (λ d. test d || list_any (is_needed_for (planning_of user.now.by.now) user.now.object d) (enumerate_from first symbols.now))
        stamps.new set.new.items) }
{
    for (index, symbol) in symbols.iter().enumerate() {
        let number = SymbolId::from_u32(first + index as u32);
        add_symbol(user, set, stamps, number, symbol)?;
    }
    Ok(())
}

/// Takes in what an object needs.
fn add_object(
    by: &Planner<'_>,
    set: &mut Vec<SymbolId>,
    stamps: &mut [u32],
    stamp: u32,
    object: (FileId, u64, u64),
) -> Result<(), AllocError>
    requires good { IsWellFormed by.now.link.now }
    requires homes { by.now.homes.now ≡ home_numbers by.now.link.now }
    ensures count { length stamps.new ≡ length stamps.old }
    ensures noted { (test : ℕ → Bool) → AreNoted stamp test stamps.old set.old.items
        → OnOk result (AreNoted stamp (λ d. test d || needs_thunk (planning_of by.now) d object) stamps.new set.new.items) }
{
    if let Some(file) = by.link.groups.file(object.0) {
        if let Some(numbers) = by.link.groups.symbol_id_range(object.0) {
            let user = BlockUser { by, stamp, object };
            let first = numbers.start().as_u32();
            add_symbols(&user, set, stamps, first, file.symbols.as_slice())?;
        }
    }
    Ok(())
}

/// Takes in the symbols that have a mark.
fn add_marked(
    set: &mut Vec<SymbolId>,
    stamps: &mut [u32],
    stamp: u32,
    marks: &[bool],
) -> Result<(), AllocError>
    requires { length marks.now < 2 ^ 32 }
    ensures count { length stamps.new ≡ length stamps.old }
    ensures noted { (test : ℕ → Bool) → AreNoted stamp test stamps.old set.old.items
        → OnOk result (AreNoted stamp (λ d. test d || is_marked marks.now d) stamps.new set.new.items) }
{
    for (index, mark) in marks.iter().enumerate() {
        note(set, stamps, stamp, SymbolId::from_u32(index as u32), *mark)?;
    }
    Ok(())
}

/// Takes in the symbols that have a mark into the set of the first block, and nothing into that of another.
fn add_elsewhere(
    set: &mut Vec<SymbolId>,
    stamps: &mut [u32],
    stamp: u32,
    number: u32,
    marks: &[bool],
) -> Result<(), AllocError>
    requires { length marks.now < 2 ^ 32 }
    ensures count { length stamps.new ≡ length stamps.old }
    ensures noted { (test : ℕ → Bool) → AreNoted stamp test stamps.old set.old.items
        → OnOk result (AreNoted stamp (λ d. test d || ((number == 0) && is_marked marks.now d)) stamps.new set.new.items) }
{
    if number == 0 {
        add_marked(set, stamps, stamp, marks)?;
    }
    Ok(())
}

/// The thunks of a block with a number and these objects. The first block has those that the marked symbols need besides.
fn thunk_set(
    alloc: Global,
    by: &Planner<'_>,
    stamps: &mut [u32],
    number: u32,
    objects: &[(FileId, u64, u64)],
) -> Result<ThunkBlock, AllocError>
    requires good { IsWellFormed by.now.link.now }
    requires homes { by.now.homes.now ≡ home_numbers by.now.link.now }
    requires number { number + 1 < 2 ^ 32 }
    requires marks { AreElsewhere by.now.link.now by.now.live.now by.now.elsewhere.now }
    requires stamps { AreFresh (planning_of by.now) number stamps.old }
    ensures set { IfOk result (λ block. block.symbols ≡ thunk_set (planning_of by.now) number objects.now) }
    ensures stamps { OnOk result (AreFresh (planning_of by.now) (number + 1) stamps.new) }
{
    let stamp = number + 1;
    let mut symbols = Vec::new(alloc);
    for object in objects {
        add_object(by, &mut symbols, stamps, stamp, *object)?;
    }
    add_elsewhere(&mut symbols, stamps, stamp, number, by.elsewhere)?;
    let block = ThunkBlockBuilder { symbols }.build()?;
    Ok(block)
}

/// So many zeros.
fn no_stamps(alloc: Global, count: usize) -> Result<Vec<u32>, AllocError>
    ensures { IfOk result (λ stamps. stamps.items ≡ replicate count 0) }
{
    let stamps = vec![in alloc; 0u32; count]?;
    Ok(stamps)
}

/// The thunks of each block.
pub(crate) fn thunk_sets(
    alloc: Global,
    by: &Planner<'_>,
    objects: &[(FileId, u64, u64)],
    blocks: &[Block],
) -> Result<Vec<ThunkBlock>, AllocError>
    requires good { IsWellFormed by.now.link.now }
    requires homes { by.now.homes.now ≡ home_numbers by.now.link.now }
    requires few { length blocks.now + 1 < 2 ^ 32 }
    requires marks { AreElsewhere by.now.link.now by.now.live.now by.now.elsewhere.now }
    ensures { IfOk result (λ sets. map (λ b. b.symbols) sets.items ≡ sets_of (planning_of by.now) objects.now blocks.now) }
{
    let mut stamps = no_stamps(alloc, by.link.groups.symbol_count() as usize)?;
    let mut sets = Vec::with_capacity(alloc, blocks.len())?;
    for (number, block) in blocks.iter().enumerate() {
        let users = objects_of(objects, *block);
        sets.push(thunk_set(alloc, by, &mut stamps, number as u32, users)?)?;
    }
    if blocks.is_empty() {
        sets.push(thunk_set(alloc, by, &mut stamps, 0, &[])?)?;
    }
    Ok(sets)
}

/// For each symbol whether it is in the primary part and a live section of another part names it where a thunk may stand in.
pub(crate) fn named_elsewhere(
    alloc: Global,
    link: &LinkInput,
    live: &Live,
) -> Result<Vec<bool>, AllocError>
    requires { IsWellFormed link.now }
    ensures { IfOk result (λ marks. AreElsewhere link.now live.now marks.items) }
{
    let marks = primary_references(alloc, link, live)?;
    Ok(marks)
}
