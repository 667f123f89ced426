//! Reading in pieces: the answers are those of the whole text, whatever the pieces are and whoever reads them.

use crate::reading::add_result;
use crate::rows::expect_answer;
use crate::shown::{Shown, add_shown};
use lk_input::{InputError, read_link, read_link_in_pieces, read_link_in_pieces_by_workers};
use lk_link::LinkInput;
use std::alloc::{AllocError, Global};
use std::process::Abort;
use std::test::Fail;
use std::thread::Threads;

/// Sizes of pieces, in bytes.
const SIZES: [usize; 4] = [0, 1, 64, 150];

/// Numbers of workers.
const WORKERS: [usize; 4] = [0, 2, 4, 8];

/// Texts of groups that end and begin as cuts want it, where each kind of piece is whole or at fault.
const TEXTS: [&str; 38] = [
    // Groups of files, of one and none among them.
    r#"{"options":{"gc":false},"plan":{"page":1},"groups":[[{"kind":"prelude"}],[{"kind":"object","name":"a"},{"kind":"object","name":"b"}],[],[{"kind":"dynamic","name":"c"}],[{"kind":"script"}]]}"#,
    // Members behind the groups, and unknown ones around them.
    r#"{"x":[1],"groups":[[{"kind":"prelude"}],[{"kind":"object"}],[{"kind":"object","name":"z"}]],"plan":{"page":2},"y":{"groups":[]},"options":{"gc":false}}"#,
    r#"{"groups":[[{"kind":"prelude"}],[{"kind":"object"}],[{"kind":"object"}]]}"#,
    // The key with an escape.
    r#"{"plan":{"page":1},"\u0067roups":[[{"kind":"prelude"}],[{"kind":"object"}],[{"kind":"object"}],[{"kind":"object","name":"\u00e9"}]]}"#,
    // Twice, in each order.
    r#"{"plan":{"page":1},"groups":[[{"kind":"prelude"}],[{"kind":"object"}],[{"kind":"object"}]],"groups":[[{"kind":"script"}],[{"kind":"object"}]]}"#,
    r#"{"plan":{"page":1},"groups":0,"groups":[[{"kind":"prelude"}],[{"kind":"object"}],[{"kind":"object"}]]}"#,
    r#"{"plan":{"page":1},"groups":[[{"kind":"prelude"}],[{"kind":"object"}],[{"kind":"object"}]],"groups":0}"#,
    // What cuts look for, inside a name and in unknown members.
    r#"{"plan":{"page":1},"groups":[[{"kind":"prelude"}],[{"kind":"object","name":"],[{\"kind"}],[{"kind":"object","x":[[],[{"a":1}],[{"b":2}]]}],[{"kind":"object"}]]}"#,
    r#"{"x":[[1],[{"a":[[],[{"b":0}]]}]],"plan":{"page":1},"groups":[[{"kind":"prelude"}],[{"kind":"object"}]],"y":[[1],[{"a":0}],[{"b":0}]]}"#,
    r#"{"plan":{"page":1},"groups":[[{"kind":"prelude"}],[{"kind":"object"}]],"name":"],[{"}"#,
    // Faults in the first piece, in the middle, in the last one and behind it.
    r#"{"plan":{"page":1},"groups":[[{"kind":"nothing"}],[{"kind":"object"}],[{"kind":"object"}],[{"kind":"object"}]]}"#,
    r#"{"plan":{"page":1},"groups":[[{"kind":"prelude"}],[{"kind":"object","symbols":0}],[{"kind":"object"}],[{"kind":"object"}]]}"#,
    r#"{"plan":{"page":1},"groups":[[{"kind":"prelude"}],[{"kind":"object"}],[{"kind":"object"}],[{"kind":"object"},0]]}"#,
    r#"{"plan":{"page":null},"groups":[[{"kind":"prelude"}],[{"kind":"object"}],[{"kind":"object"}],[{"kind":"object"}]]}"#,
    r#"{"plan":{"page":1},"groups":[[{"kind":"prelude"}],[{"kind":"object"}],[{"kind":"object"}],[{"kind":"object"}]],"options":0}"#,
    r#"{"plan":{"page":1},"groups":[[{"kind":"prelude"}],[{"kind":"object"}],[{"kind":"object"}],[{"kind":"object"}]]}}"#,
    r#"{"plan":{"page":1},"groups":[[{"kind":"prelude"}],[{"kind":"object"}],[{"kind":"object"}],[{"kind":"object"}]"#,
    r#"{"plan":{"page":1},"groups":[[{"kind":"prelude"}],[{"kind":"object"}],[{"kind":"object"}],,[{"kind":"object"}]]}"#,
    r#"{"plan":{"page":1},"groups":[[{"kind":"prelude"}],[{"kind":"object"}]],[{"kind":"object"}],[{"kind":"object"}]]}"#,
    r#"[{"plan":{"page":1},"groups":[[{"kind":"prelude"}],[{"kind":"object"}],[{"kind":"object"}]]}]"#,
    // One group alone, also with members around it, and of one file.
    r#"{"plan":{"page":1},"groups":[[{"kind":"prelude"},{"kind":"object","name":"a"},{"kind":"script","name":"b"},{"kind":"object","name":"c"},{"kind":"object","name":"d"}]]}"#,
    r#"{"x":0,"groups":[[{"kind":"prelude"},{"kind":"object"},{"kind":"dynamic","name":"z"}]],"plan":{"page":2},"y":[{"kind":"object"},{"kind":"object"}]}"#,
    r#"{"plan":{"page":1},"groups":[[{"kind":"prelude"}]]}"#,
    // A long group between short ones, and empty ones beside it.
    r#"{"plan":{"page":1},"groups":[[{"kind":"prelude"}],[{"kind":"object","name":"a"},{"kind":"object","name":"b"},{"kind":"object","name":"c"},{"kind":"object","name":"d"},{"kind":"object","name":"e"},{"kind":"object","name":"f"}],[{"kind":"script"}],[{"kind":"dynamic"}]]}"#,
    r#"{"plan":{"page":1},"groups":[[],[{"kind":"prelude"},{"kind":"object","name":"a"},{"kind":"object","name":"b"}],[],[],[{"kind":"object","name":"c"},{"kind":"object","name":"d"}],[]]}"#,
    // A segment, which has a kind too, behind the groups.
    r#"{"groups":[[{"kind":"prelude"},{"kind":"object"}],[{"kind":"object"},{"kind":"object"}]],"plan":{"page":1,"segments":[{"kind":"load"},{"kind":"tls"},{"kind":"other"}]}}"#,
    // Other keys first, and files in unknown members of files.
    r#"{"plan":{"page":1},"groups":[[{"kind":"prelude"},{"archive":true,"kind":"object"},{"symbols":[{"at":["undef"]},{"at":["undef"]}],"kind":"object"},{"name":"n","kind":"object"},{"export":true,"kind":"object"}]]}"#,
    r#"{"plan":{"page":1},"groups":[[{"kind":"prelude"},{"kind":"object","x":[{"kind":"object"},{"kind":"object"}]},{"kind":"object"}],[{"kind":"object"},{"x":[[{"kind":"object"},{"kind":"object"}],[{"kind":"object"}]],"kind":"script"}]]}"#,
    // What cuts look for between files, inside a name.
    r#"{"plan":{"page":1},"groups":[[{"kind":"prelude"},{"kind":"object","name":"},{\"kind\":\"object"},{"kind":"object","name":"},{"},{"kind":"object","name":"}]"}]]}"#,
    // The groups twice, each cut within one.
    r#"{"plan":{"page":1},"groups":[[{"kind":"prelude"},{"kind":"object"},{"kind":"object"}]],"groups":[[{"kind":"script"},{"kind":"object"},{"kind":"object"}]]}"#,
    // Faults between files, brackets too many or too few, and what isn't a list or an object among them.
    r#"{"plan":{"page":1},"groups":[[{"kind":"prelude"},{"kind":"object"}],{"kind":"object"},{"kind":"object"}]}"#,
    r#"{"plan":{"page":1},"groups":[{"kind":"prelude"},{"kind":"object"},{"kind":"object"}]}"#,
    r#"{"plan":{"page":1},"groups":[[[{"kind":"prelude"},{"kind":"object"}],[{"kind":"object"},{"kind":"object"}]]]}"#,
    r#"{"plan":{"page":1},"groups":[[{"kind":"prelude"},{"kind":"object"},,{"kind":"object"},{"kind":"object"}]]}"#,
    r#"{"plan":{"page":1},"groups":[[{"kind":"prelude"},{"kind":"object"},{"kind":"object"},{"kind":"object"}]}"#,
    r#" { "plan" : { "page" : 1 } , "groups" : [ [ {"kind" : "prelude"} , {"kind" :"object"} ,{"kind": "object"} , {"kind":"object"} ] , [ ] ] } "#,
    // One group, and spaces.
    r#"{"plan":{"page":1},"groups":[[{"kind":"prelude"},{"kind":"object"}]]}"#,
    r#" { "plan" : { "page" : 1 } , "groups" : [ [ { "kind" : "prelude" } ] , [ {"kind":"object"}],[{"kind":"object" } ],[{"kind":"object" } ] ] } "#,
];

/// All that is told of what was read.
fn told(alloc: Global, read: &Result<LinkInput, InputError>) -> Result<String, AllocError> {
    let mut line = String::new(alloc);
    add_result(&mut line, read)?;
    if let Ok(link) = read {
        add_shown(alloc, &mut line, Shown::Options, link)?;
        add_shown(alloc, &mut line, Shown::Plan, link)?;
        add_shown(alloc, &mut line, Shown::Groups, link)?;
    }
    Ok(line)
}

/// Wants the same of a text in pieces as of the whole, by each number of workers.
fn expect_alike_by_size<R: Threads + Abort + Sync>(
    rt: &R,
    alloc: Global,
    text: &str,
    want: &str,
    size: usize,
) -> Result<(), AllocError> {
    let read = read_link_in_pieces(alloc, text.as_bytes(), size);
    expect_answer(rt, text, told(alloc, &read)?.as_str(), want);
    for workers in WORKERS {
        let read = read_link_in_pieces_by_workers(rt, alloc, text.as_bytes(), workers, size);
        expect_answer(rt, text, told(alloc, &read)?.as_str(), want);
    }
    Ok(())
}

/// Wants the same of a text in pieces of each size as of the whole.
fn expect_alike<R: Threads + Abort + Sync>(
    rt: &R,
    alloc: Global,
    text: &str,
) -> Result<(), AllocError> {
    let whole = told(alloc, &read_link(alloc, text.as_bytes()))?;
    for size in SIZES {
        expect_alike_by_size(rt, alloc, text, whole.as_str(), size)?;
    }
    Ok(())
}

#[test]
fn pieces_are_read_as_the_whole(rt: HostRuntime) -> Result<(), Fail> {
    for text in TEXTS {
        expect_alike(&rt, rt.alloc(), text)?;
    }
    Ok(())
}

/// Texts with a wrong shape in a file of a group that is cut, and its path.
const FAULTS: [(&str, &str); 5] = [
    (
        r#"{"plan":{"page":1},"groups":[[{"kind":"prelude"},{"kind":"object"},{"kind":"object","symbols":0},{"kind":"object"},{"kind":"object"}]]}"#,
        "at /groups/0/2/symbols",
    ),
    (
        r#"{"plan":{"page":1},"groups":[[{"kind":"prelude"}],[{"kind":"object"},{"kind":"object"},{"kind":"object","name":[]},{"kind":"object"}],[{"kind":0}]]}"#,
        "at /groups/1/2/name",
    ),
    (
        r#"{"plan":{"page":1},"groups":[[{"kind":"prelude"},{"kind":"object"},7,{"kind":"object"},{"kind":"object"}]]}"#,
        "at /groups/0/2",
    ),
    (
        r#"{"plan":{"page":1},"groups":[[{"kind":"prelude"},{"kind":"object"},{"kind":"object"}],0,[{"kind":"object"},{"kind":"object"}]]}"#,
        "at /groups/1",
    ),
    (
        r#"{"plan":{"page":1},"groups":[[{"kind":"prelude"},{"kind":"object"},{"kind":"object"},{"kind":"object","archive":1}]]}"#,
        "at /groups/0/3/archive",
    ),
];

#[test]
fn faults_in_pieces_have_their_paths(rt: HostRuntime) -> Result<(), Fail> {
    for (text, path) in FAULTS {
        for size in SIZES {
            expect_alike_by_size(&rt, rt.alloc(), text, path, size)?;
        }
    }
    Ok(())
}

/// Parts of texts, of which any may follow any other.
const PARTS: [&str; 20] = [
    r#"[{"kind":"object"}]"#,
    r#"[{"kind":"object","name":"n"},{"kind":"dynamic"}]"#,
    r#"],[{"kind":"script"}"#,
    ",",
    ",",
    ",",
    "]",
    "}",
    " ",
    "[]",
    r#"[{"kind":"object","name":"],[{\"x"}]"#,
    r#"[{"kind":0}]"#,
    r#"],"plan":{"page":2}"#,
    r#","groups":["#,
    r#"[{"x":[[],[{"y":1}]],"kind":"object"}]"#,
    r#"{"kind":"object"}"#,
    r#"},{"kind":"object","name":"m""#,
    r#"[{"kind":"object"},{"kind":"script"}"#,
    r#"{"kind":"dynamic"},{"kind":"object"}]"#,
    "\"",
];

/// The number after this one, of numbers that look as if drawn by chance.
fn next_number(number: u64) -> u64 {
    number
        .wrapping_mul(6364136223846793005)
        .wrapping_add(1442695040888963407)
}

/// A text of so many parts that look as if drawn by chance.
fn drawn_text(alloc: Global, seed: u64, count: u64) -> Result<String, AllocError> {
    let mut text = String::from_str(alloc, r#"{"plan":{"page":1},"groups":["#)?;
    let mut number = seed;
    for at in 0..count {
        number = next_number(number);
        let part = if at % 2 == 1 && number < 1 << 63 {
            ","
        } else {
            PARTS[(number >> 40) as usize % 20]
        };
        text.push_str(part)?;
    }
    text.push_str("]}")?;
    Ok(text)
}

#[test]
fn drawn_pieces_are_read_as_the_whole(rt: HostRuntime) -> Result<(), Fail> {
    for seed in 0..1000 {
        let text = drawn_text(rt.alloc(), next_number(seed), 3 + seed % 9)?;
        expect_alike(&rt, rt.alloc(), text.as_str())?;
    }
    Ok(())
}
