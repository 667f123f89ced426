//! Items, each of which loads a unit or exports a symbol, and lists of them.

ghost use Rattle.std.specs.Prelude.{◌≡◌, ◌==◌, ◌++◌, ◌∷◌, [], IfNone, IfSome, OnErr, OnOk, length, take};
ghost use Rattle.std.specs.Option.{option_to_list};
ghost use Rattle.lk_workers.specs.Items.{unit_of};
ghost use Rattle.lk_workers.specs.Work.{item_of, items_of, symbol_item};

use lk_link::{FileId, SectionGcUnit, SymbolId, ValueFlags};
use lk_reach::{Ask, Successors, Unit};
use std::alloc::{AllocError, Global};
use std::marker::Model;

/// A section that is to be loaded (libwild: `GcLoadRequest`).
#[derive(Clone, Copy, Debug, PartialEq, Eq)]
pub struct GcLoadRequest {
    pub file_id: FileId,
    pub gc_unit: SectionGcUnit,
}

/// What waits to be done (libwild: `WorkItem`).
#[derive(Clone, Copy, Debug, PartialEq, Eq)]
pub enum WorkItem {
    /// The file of a symbol loads what the symbol needs.
    LoadGlobalSymbol(SymbolId),
    /// A section is loaded.
    LoadGcUnit(GcLoadRequest),
    /// A symbol is told to the dynamic linker.
    ExportDynamic(SymbolId),
}

impl WorkItem {
    /// The unit that is loaded or exported.
    pub fn unit(&self) -> Unit
        ensures { result ≡ unit_of self.now }
    {
        match *self {
            WorkItem::LoadGlobalSymbol(symbol) | WorkItem::ExportDynamic(symbol) => {
                Unit::Sym(symbol)
            }
            WorkItem::LoadGcUnit(request) => Unit::Sec(
                request.file_id,
                request.gc_unit.section_index(),
            ),
        }
    }
}

/// What waits to be done, in the order in which it was added (libwild: `LocalWorkQueue`). Contracts see the list.
#[derive(Drop)]
pub struct LocalWorkQueue {
    pub(crate) items: Vec<WorkItem>,
}

impl Model for LocalWorkQueue {
    ghost use Rattle.std.specs.Prelude.{List};
    ghost use Rattle.lk_workers.specs.declared.work.WorkItem.{WorkItem};

    ghost Value = { List WorkItem };

    ghost view = { λ a. a.items.items };
}

impl LocalWorkQueue {
    /// Nothing waits; takes no memory.
    pub fn new(alloc: Global) -> LocalWorkQueue
        ensures { result ≡ [] }
    {
        LocalWorkQueue {
            items: Vec::new(alloc),
        }
    }

    /// What waits, lent.
    pub fn as_slice(&self) -> &[WorkItem]
        ensures { result.now ≡ self.now }
    {
        self.items.as_slice()
    }

    /// How much waits.
    pub fn len(&self) -> usize
        ensures { result ≡ length self.now }
    {
        self.items.len()
    }

    /// Whether nothing waits.
    pub fn is_empty(&self) -> bool
        ensures { result ≡ (length self.now == 0) }
    {
        self.items.is_empty()
    }

    /// Adds an item behind those that wait. Without memory all stays as it is.
    pub fn push(&mut self, item: WorkItem) -> Result<(), AllocError>
        ensures added { OnOk result (self.new ≡ self.old ++ item ∷ []) }
        ensures kept { OnErr result (self.new ≡ self.old) }
    {
        self.items.push(item)?;
        Ok(())
    }

    /// Takes the item that was added last, if one waits.
    pub fn pop(&mut self) -> Option<WorkItem>
        ensures some { IfSome result (λ item. self.old ≡ self.new ++ item ∷ []) }
        ensures none { IfNone result ((self.old ≡ []) × (self.new ≡ [])) }
    {
        self.items.pop()
    }

    /// Adds an item for each of these asks that isn't a mark. Without memory all stays as it is.
    pub fn add(&mut self, asks: Successors<'_>) -> Result<(), AllocError>
        ensures added { OnOk result (self.new ≡ self.old ++ items_of asks.entry) }
        ensures kept { OnErr result (self.new ≡ self.old) }
    {
        let before = self.items.len();
        let added = self.add_all(asks);
        if added.is_err() {
            self.items.truncate(before);
        }
        added
    }

    /// Adds an item for each of these asks that isn't a mark, for as many as there is memory.
    fn add_all(&mut self, asks: Successors<'_>) -> Result<(), AllocError>
        ensures added { OnOk result (self.new ≡ self.old ++ items_of asks.entry) }
        ensures kept { take (length self.old) self.new ≡ self.old }
    {
        for ask in asks {
            self.add_item(item_of(ask))?;
        }
        Ok(())
    }

    /// Adds an item, if there is one. Without memory all stays as it is.
    fn add_item(&mut self, item: Option<WorkItem>) -> Result<(), AllocError>
        ensures added { OnOk result (self.new ≡ self.old ++ option_to_list item) }
        ensures kept { OnErr result (self.new ≡ self.old) }
    {
        if let Some(item) = item {
            self.push(item)?;
        }
        Ok(())
    }
}

/// What waits for an ask; a mark loads nothing.
fn item_of(ask: Ask) -> Option<WorkItem>
    ensures { result ≡ item_of ask }
{
    match ask {
        Ask::Reference(symbol, flags) => Some(symbol_item(symbol, flags)),
        Ask::Section(file_id, index) => Some(WorkItem::LoadGcUnit(GcLoadRequest {
            file_id,
            gc_unit: SectionGcUnit::new(index),
        })),
        Ask::Mark(_, _) => None,
    }
}

/// What waits for a symbol that is referred to with these flags: that it is exported, else that it is loaded.
fn symbol_item(symbol: SymbolId, flags: ValueFlags) -> WorkItem
    ensures { result ≡ symbol_item symbol flags }
{
    if flags.0 == ValueFlags::EXPORT_DYNAMIC.0 {
        WorkItem::ExportDynamic(symbol)
    } else {
        WorkItem::LoadGlobalSymbol(symbol)
    }
}
