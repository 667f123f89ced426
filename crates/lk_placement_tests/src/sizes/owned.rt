//! Whose the bytes of each part are: live sections, commons, images, and what files take in tables.

ghost use Rattle.lk_link.specs.WellFormed.{IsWellFormed};
ghost use Rattle.lk_live.specs.Reach.{AreLive};

use crate::rows::{Asked, expect_rows};
use crate::sizes::OfSizes;
use lk_check::check_link;
use lk_link::{FileId, LinkInput, PartId, Small64};
use lk_live::{Live, traverse_alone};
use lk_sizes::part_owners::plain_owners;
use lk_sizes::{PartOwners, SizeError, part_sizes};
use lk_tables::{FileShare, TableTotals, bytes_in_part, mark_prelude, symbol_shares};
use std::alloc::{AllocError, Global};
use std::test::Fail;

/// The owners of each part of one small link, and the bytes of all of them: sections by file and index, commons by symbol, and
/// tables by file, with what the prelude takes when it is known what is emitted. Parts 0 and 1 are headers: 64 bytes, and 56 for
/// the load segment and for the stack. Part 2 is the dynamic symbol table, with a first entry, `puts` of the dynamic file, and
/// `f`, `c`, `g`, `d` and `z`, which are exported; part 3 has their names, with a byte in front. Parts 4 and 6 have entries of
/// `puts` and `f`. Sections of 6 and 1 bytes take 8 and 4 of part 5. In part 7 a section of 2 bytes and a common of 5 take 4 and 8,
/// and those of the next file, of 9 and 2, take 12 and 4. In part 8 stand an image of 3 bytes, the identity of 11 (eight, its text,
/// and a zero byte), and a section of 3. Part 9 has the first entry and
/// local `l`, part 10 the others that are copied, of the prelude `etext`, and part 11 a byte and their names. Seven sections are
/// emitted, with names of 33 bytes and seven zero bytes: headers keep none.
const OWNED: &str = r#"
{"options":{"output":"shared","identity":"id"},"plan":{"page":16,"sections":[{"name":".head","attrs":1,"parts":[[8,false],[4,false]]},{"name":".dyn","attrs":1,"parts":[[8,false],[1,false]]},{"name":".plt","attrs":5,"parts":[[16,false]]},{"name":".text","attrs":5,"parts":[[4,false]]},{"name":".got","attrs":3,"parts":[[8,false]]},{"name":".bss","attrs":19,"parts":[[4,false]]},{"name":".comment","parts":[[1,false]]},{"name":".sym","parts":[[8,false],[4,false],[1,false]]},{"name":".names","parts":[[8,false],[1,false]]}],"segments":[{"kind":"load"},{"kind":"stack"}],"events":[["seg",0],["sec",0],["sec",1],["sec",2],["sec",3],["sec",4],["sec",5],["endseg",0],["sec",6],["sec",7],["sec",8],["seg",1],["endseg",1]],"file_header":0,"program_headers":1,"dynsym":2,"dynstr":3,"plt":4,"got":6,"comment":8,"symtab_local":9,"symtab_global":10,"strtab":11,"section_headers":12,"shstrtab":13},"groups":[[{"kind":"prelude","symbols":[{"at":["end",3],"name":"etext"}]}],[{"kind":"object","symbols":[{"at":["sec",0,0],"name":"f"},{"at":["sec",0,4],"name":"l","local":true},{"at":["sec",0,4],"name":".Lx","local":true},{"at":["common",7,5],"name":"c"},{"at":["undef"],"def":8}],"sections":[{"slot":"must","part":5,"size":6,"attrs":4,"relocs":[[0,"PltRelative",4,0,false],[1,"Got",0,0,false],[2,"Absolute",3,0,false]]},{"slot":"must","part":7,"size":2},{"slot":"must","part":8,"size":3},{"slot":"merge","part":8,"strings":true,"data":"616200"}]}],[{"kind":"object","symbols":[{"at":["sec",0,0],"name":"g"},{"at":["common",7,2],"name":"d"}],"sections":[{"slot":"must","part":5,"size":1,"attrs":4,"relocs":[[0,"Absolute",1,0,false]]},{"slot":"must","part":7,"size":9}]}],[{"kind":"dynamic","symbols":[{"at":["dyn"],"name":"puts","flags":2}]}],[{"kind":"script","symbols":[{"at":["redirect",["num",3],["none"],false],"name":"z"}]}]]} => 0: = 64; 1: = 112; 2: file 1 48 file 2 48 file 3 24 file 4 24 = 168; 3: file 1 4 file 2 4 file 3 5 file 4 2 = 16; 4: file 3 16 = 16; 5: live 1.0.0 6 live 2.0.0 1 = 12; 6: file 1 8 file 3 8 = 16; 7: live 1.0.1 2 common 4 5 live 2.0.1 9 common 7 2 = 28; 8: image identity id live 1.0.2 3 = 17; 9: file 1 24 late 24 = 48; 10: file 1 48 file 2 48 file 4 24 late 24 = 144; 11: file 1 6 file 2 4 file 4 2 late 7 = 19; 12: = 448; 13: = 40;
"#;

/// The lengths of the images of its output sections.
const IMAGE_LENS: &[u64] = &[0, 0, 0, 0, 0, 0, 3];

/// The sections that are live, of a link whose output isn't partial, what comes into its parts, and what files take in tables, of the
/// prelude what it takes behind that too.
#[derive(Clone, Copy)]
struct Owned<'a> {
    link: &'a LinkInput,
    live: &'a Live,
    owners: &'a PartOwners,
    shares: &'a [FileShare],
    late: FileShare,
}

/// Adds the live sections of a part that a file has.
fn add_sections(
    line: &mut String,
    owned: Owned<'_>,
    file: FileId,
    part: u32,
) -> Result<(), AllocError> {
    let groups = &owned.link.groups;
    if groups.len() <= 65535 && groups.file_count() <= 16777216 {
        for input in owned.live.inputs(owned.link) {
            let found = input.file;
            let is_its = found.group == file.group && found.file == file.file;
            if is_its && input.section.part.as_u32() == part {
                let (index, size) = (input.index, input.section.size);
                write!(line, " live {file}.{index} {size}")?;
            }
        }
    }
    Ok(())
}

/// Adds the commons of a part whose symbols have these numbers.
fn add_commons(
    line: &mut String,
    owners: &PartOwners,
    first: usize,
    behind: usize,
    part: u32,
) -> Result<(), AllocError> {
    for common in owners.commons() {
        let symbol = common.symbol.as_usize();
        if first <= symbol && symbol < behind && common.part.as_u32() == part {
            let size = common.size;
            write!(line, " common {symbol} {size}")?;
        }
    }
    Ok(())
}

/// Adds the identity, if it stands in a part.
fn add_identity(line: &mut String, link: &LinkInput, part: u32) -> Result<(), AllocError> {
    match (&link.plan.named.comment, &link.options.identity) {
        (Some(comment), Some(text)) if comment.as_u32() == part => {
            let text = text.as_str();
            write!(line, " identity {text}")
        }
        _ => Ok(()),
    }
}

/// The bytes that a file takes of each table.
fn file_totals(share: &FileShare) -> TableTotals {
    TableTotals {
        got: share.entries.got,
        plt: share.entries.plt,
        symtab_local: share.symtab.local,
        symtab_global: share.symtab.global,
        strtab: share.symtab.names,
        dynsym: share.dynamic.entries.saturating_add(share.exports.entries),
        dynstr: share.dynamic.names.saturating_add(share.exports.names),
        file_header: 0,
        program_headers: 0,
        section_headers: 0,
        shstrtab: 0,
    }
}

/// Adds the bytes that a file takes of the table of a part.
fn add_share(
    line: &mut String,
    link: &LinkInput,
    word: &str,
    share: &FileShare,
    part: u32,
) -> Result<(), AllocError> {
    let part = PartId::from_u32(part);
    match bytes_in_part(&link.plan.named, &file_totals(share), part) {
        0 => Ok(()),
        bytes => write!(line, " {word} {bytes}"),
    }
}

/// Adds the owners of a part that a file brings, by its number and those of its symbols.
fn add_file(
    alloc: Global,
    line: &mut String,
    owned: Owned<'_>,
    file: FileId,
    number: usize,
    symbols: (usize, usize),
    part: u32,
) -> Result<(), AllocError> {
    add_sections(line, owned, file, part)?;
    add_commons(line, owned.owners, symbols.0, symbols.1, part)?;
    match owned.shares.get(number) {
        Some(share) => {
            let word = format!(in alloc; "file {number}")?;
            add_share(line, owned.link, word.as_str(), share, part)
        }
        None => Ok(()),
    }
}

/// Adds the owners of a part that files bring, file by file, and what the prelude takes behind that.
fn add_files(
    alloc: Global,
    line: &mut String,
    owned: Owned<'_>,
    part: u32,
) -> Result<(), AllocError> {
    let groups = &owned.link.groups;
    let mut first = 0usize;
    let mut number = 0usize;
    if groups.len() <= 65535 && groups.file_count() <= 16777216 {
        for file in groups.files() {
            let behind = first.saturating_add(file.file.symbols.len());
            add_file(alloc, line, owned, file.id, number, (first, behind), part)?;
            first = behind;
            number = number.saturating_add(1);
        }
    }
    add_share(line, owned.link, "late", &owned.late, part)
}

/// Adds the owners of a part with so many bytes, in their order.
fn add_part(
    alloc: Global,
    line: &mut String,
    owned: Owned<'_>,
    part: u32,
    bytes: u64,
) -> Result<(), AllocError> {
    let space = if part == 0 { "" } else { " " };
    write!(line, "{space}{part}:")?;
    match owned.owners.contents().get(part as usize) {
        Some(contents) if contents.has_image => line.push_str(" image")?,
        _ => {}
    }
    add_identity(line, owned.link, part)?;
    add_files(alloc, line, owned, part)?;
    write!(line, " = {bytes};")
}

/// Adds the owners of each part.
fn add_parts(alloc: Global, line: &mut String, owned: Owned<'_>) -> Result<(), AllocError> {
    let mut part = 0u32;
    for bytes in &part_sizes(alloc, owned.owners)? {
        add_part(alloc, line, owned, part, *bytes)?;
        part = part.saturating_add(1);
    }
    Ok(())
}

/// Adds the owners of each part where this is live, or why there are none.
fn add_live_owned(
    alloc: Global,
    line: &mut String,
    link: &LinkInput,
    live: &Live,
) -> Result<(), AllocError>
    requires good { IsWellFormed link.now }
    requires live { AreLive link.now live.now }
{
    match &plain_owners(alloc, link, &Small64, live, IMAGE_LENS) {
        Ok(owners) => {
            let shares = &symbol_shares(alloc, link, &Small64, live)?.files;
            let late = mark_prelude(link, &Small64, live, owners.header().told.as_slice());
            let owned = Owned {
                link,
                live,
                owners,
                shares,
                late,
            };
            add_parts(alloc, line, owned)
        }
        Err(SizeError::NoMemory) => Err(AllocError),
        Err(error) => write!(line, "refused {error:?}"),
    }
}

/// Adds the owners of each part of a link that is well formed, and whose output isn't partial.
pub fn add_owned(alloc: Global, line: &mut String, link: &LinkInput) -> Result<(), AllocError> {
    if check_link(link).is_err() || link.options.output.is_partial() {
        return Ok(());
    }
    match &traverse_alone(alloc, link) {
        Ok(live) => add_live_owned(alloc, line, link, live),
        Err(_) => Ok(()),
    }
}

#[test]
fn parts_have_their_owners(rt: HostRuntime) -> Result<(), Fail> {
    expect_rows(&rt, rt.alloc(), Asked::Sizes(OfSizes::Owned), OWNED)
}
