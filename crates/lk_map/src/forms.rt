//! The forms of a map's lines: the one table by which a line is read.

ghost use Rattle.std.specs.Prelude.{◌≡◌, ℕ, ◌≤◌, List, length};
ghost use Rattle.lk_map.specs.Forms.{fields_of, rank, word_text};

/// A word that stands in a line as it is.
#[derive(Clone, Copy)]
pub enum Word {
    Layout,
    Section,
    Index,
    Mem,
    File,
    Align,
    Lma,
    Attrs,
    Part,
    Segment,
    Live,
    Single,
    Merged,
    Piece,
    Block,
    Thunk,
    Symbol,
    Got,
    Plt,
    Dyn,
    Entry,
    Not,
    Loaded,
    An,
    Address,
    End,
}

/// What stands between two blanks of a line.
#[derive(Clone, Copy)]
pub enum Field {
    /// This word.
    Word(Word),
    /// A number in decimal.
    Number,
    /// A number in base 16 behind `0x`.
    Address,
    /// A number in decimal, or `-`.
    NumberOrNone,
    /// A number in base 16 behind `0x`, or `-`.
    AddressOrNone,
}

/// A form that a line can have. The entry's line has three.
#[derive(Clone, Copy)]
pub enum Form {
    Layout,
    Section,
    Part,
    Segment,
    Live,
    Single,
    Merged,
    Piece,
    Block,
    Thunk,
    Symbol,
    Entry,
    NotLoaded,
    NotAnAddress,
    End,
}

/// All forms, in the order in which their lines stand.
pub const FORMS: [Form; 15] = [
    Form::Layout,
    Form::Section,
    Form::Part,
    Form::Segment,
    Form::Live,
    Form::Single,
    Form::Merged,
    Form::Piece,
    Form::Block,
    Form::Thunk,
    Form::Symbol,
    Form::Entry,
    Form::NotLoaded,
    Form::NotAnAddress,
    Form::End,
];

/// The most fields that a form has.
pub const MOST_FIELDS: usize = 16;

/// The place of the first line among all lines of a map.
pub const LAYOUT_RANK: u8 = 0;

/// That of the lines of sections.
pub const SECTION_RANK: u8 = 1;

/// That of the lines of segments.
pub const SEGMENT_RANK: u8 = 3;

/// That of the line of the entry.
pub const ENTRY_RANK: u8 = 11;

/// That of the last line.
pub const END_RANK: u8 = 12;

/// A word as it is written. Always inlined, so that a word that is known is a constant.
#[inline(always)]
#[tactic(auto, unfolding(crate::specs::Forms::word_text))]
pub fn text_of(word: Word) -> &'static str
    ensures { result.now ≡ word_text word }
{
    match word {
        Word::Layout => "layout",
        Word::Section => "section",
        Word::Index => "index",
        Word::Mem => "mem",
        Word::File => "file",
        Word::Align => "align",
        Word::Lma => "lma",
        Word::Attrs => "attrs",
        Word::Part => "part",
        Word::Segment => "segment",
        Word::Live => "live",
        Word::Single => "single",
        Word::Merged => "merged",
        Word::Piece => "piece",
        Word::Block => "block",
        Word::Thunk => "thunk",
        Word::Symbol => "symbol",
        Word::Got => "got",
        Word::Plt => "plt",
        Word::Dyn => "dyn",
        Word::Entry => "entry",
        Word::Not => "not",
        Word::Loaded => "loaded",
        Word::An => "an",
        Word::Address => "address",
        Word::End => "end",
    }
}

// The fields of each form, in their order.

const LAYOUT_FIELDS: [Field; 1] = [Field::Word(Word::Layout)];

const SECTION_FIELDS: [Field; 16] = [
    Field::Word(Word::Section),
    Field::Number,
    Field::Word(Word::Index),
    Field::NumberOrNone,
    Field::Word(Word::Mem),
    Field::Address,
    Field::Number,
    Field::Word(Word::File),
    Field::Address,
    Field::Number,
    Field::Word(Word::Align),
    Field::Number,
    Field::Word(Word::Lma),
    Field::Address,
    Field::Word(Word::Attrs),
    Field::Number,
];

const PART_FIELDS: [Field; 10] = [
    Field::Word(Word::Part),
    Field::Number,
    Field::Word(Word::Mem),
    Field::Address,
    Field::Number,
    Field::Word(Word::File),
    Field::Address,
    Field::Number,
    Field::Word(Word::Align),
    Field::Number,
];

const SEGMENT_FIELDS: [Field; 10] = [
    Field::Word(Word::Segment),
    Field::Number,
    Field::Word(Word::Mem),
    Field::Address,
    Field::Number,
    Field::Word(Word::File),
    Field::Address,
    Field::Number,
    Field::Word(Word::Align),
    Field::Number,
];

const LIVE_FIELDS: [Field; 6] = [
    Field::Word(Word::Live),
    Field::Number,
    Field::Number,
    Field::Number,
    Field::Address,
    Field::Number,
];

const SINGLE_FIELDS: [Field; 5] = [
    Field::Word(Word::Single),
    Field::Number,
    Field::Number,
    Field::Number,
    Field::Number,
];

const MERGED_FIELDS: [Field; 7] = [
    Field::Word(Word::Merged),
    Field::Number,
    Field::Number,
    Field::Number,
    Field::Number,
    Field::Number,
    Field::Address,
];

const PIECE_FIELDS: [Field; 4] = [
    Field::Word(Word::Piece),
    Field::Number,
    Field::Address,
    Field::Number,
];

const BLOCK_FIELDS: [Field; 4] = [
    Field::Word(Word::Block),
    Field::Number,
    Field::Number,
    Field::Number,
];

const THUNK_FIELDS: [Field; 4] = [
    Field::Word(Word::Thunk),
    Field::Number,
    Field::Number,
    Field::AddressOrNone,
];

const SYMBOL_FIELDS: [Field; 10] = [
    Field::Word(Word::Symbol),
    Field::Number,
    Field::Address,
    Field::Number,
    Field::Word(Word::Got),
    Field::AddressOrNone,
    Field::Word(Word::Plt),
    Field::AddressOrNone,
    Field::Word(Word::Dyn),
    Field::NumberOrNone,
];

const ENTRY_FIELDS: [Field; 2] = [Field::Word(Word::Entry), Field::AddressOrNone];

const NOT_LOADED_FIELDS: [Field; 3] = [
    Field::Word(Word::Entry),
    Field::Word(Word::Not),
    Field::Word(Word::Loaded),
];

const NOT_AN_ADDRESS_FIELDS: [Field; 4] = [
    Field::Word(Word::Entry),
    Field::Word(Word::Not),
    Field::Word(Word::An),
    Field::Word(Word::Address),
];

const END_FIELDS: [Field; 1] = [Field::Word(Word::End)];

/// The fields of a form, in their order.
#[tactic(auto, unfolding(crate::specs::Forms::fields_of, crate::specs::Forms::row_of))]
pub fn fields(form: Form) -> &'static [Field]
    ensures fields { result.now ≡ fields_of form }
    ensures few { length result.now ≤ 16 }
{
    match form {
        Form::Layout => &LAYOUT_FIELDS,
        Form::Section => &SECTION_FIELDS,
        Form::Part => &PART_FIELDS,
        Form::Segment => &SEGMENT_FIELDS,
        Form::Live => &LIVE_FIELDS,
        Form::Single => &SINGLE_FIELDS,
        Form::Merged => &MERGED_FIELDS,
        Form::Piece => &PIECE_FIELDS,
        Form::Block => &BLOCK_FIELDS,
        Form::Thunk => &THUNK_FIELDS,
        Form::Symbol => &SYMBOL_FIELDS,
        Form::Entry => &ENTRY_FIELDS,
        Form::NotLoaded => &NOT_LOADED_FIELDS,
        Form::NotAnAddress => &NOT_AN_ADDRESS_FIELDS,
        Form::End => &END_FIELDS,
    }
}

/// The place of a form's lines among all lines of a map.
#[tactic(auto, unfolding(crate::specs::Forms::rank, crate::specs::Forms::row_of))]
pub fn rank_of(form: Form) -> u8
    ensures rank { result ≡ rank form }
    ensures low { result ≤ 12 }
{
    match form {
        Form::Layout => LAYOUT_RANK,
        Form::Section => SECTION_RANK,
        Form::Part => 2,
        Form::Segment => SEGMENT_RANK,
        Form::Live => 4,
        Form::Single => 5,
        Form::Merged => 6,
        Form::Piece => 7,
        Form::Block => 8,
        Form::Thunk => 9,
        Form::Symbol => 10,
        Form::Entry | Form::NotLoaded | Form::NotAnAddress => ENTRY_RANK,
        Form::End => END_RANK,
    }
}
