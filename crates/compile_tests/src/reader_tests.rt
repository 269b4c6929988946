//! The readers of each fact of small dictionaries.
ghost use Rattle.std.specs.Prelude.{◌≡◌, length};

use crate::dictionaries::{
    AMOUNTS, CASES, CHECKED, CONDITIONS, MEMBERS, SUM, SUM_OVER_A_PLACEHOLDER, accepted,
};
use dep_index::{ReaderOf, Readers, build};
use dictionary::Dictionary;
use fact_values::NoMemory;
use std::alloc::Global;

/// A fact, the number of one that mentions it, and whether each of its mentions is of the same member.
type Read = (u32, u32, bool);

// The sum stands first, and is of the highest rank; one field is mentioned of the same member, of all, and of both.
const FIELDS: &str =
    r#"{"version":"1","facts":[{"path":"/sum","derived":"Int","is":["CollectionSum","/c/*/own"]},{"path":"/c","writable":"Collection"},{"path":"/c/*/both","derived":"Int","is":["Add",["Dependency","../n"],["CollectionSum","/c/*/n"]]},{"path":"/c/*/own","derived":"Int","is":["Dependency","../n"]},{"path":"/c/*/n","writable":"Int"}]}"#;

fn add_row(reads: &mut Vec<Read>, of: u32, readers: &[ReaderOf]) -> Result<(), NoMemory> {
    for reader in readers {
        reads.push((of, reader.fact, reader.same))?;
    }
    Ok(())
}

// The readers of each fact, one after the other.
fn add_all(reads: &mut Vec<Read>, readers: &Readers, count: u32) -> Result<(), NoMemory>
    requires all { count ≡ length readers.now }
{
    for place in 0..count {
        add_row(reads, place + 1, readers.readers(place + 1))?;
    }
    Ok(())
}

fn are_reads(alloc: Global, readers: &Readers, count: u32, wanted: &[Read]) -> bool
    requires all { count ≡ length readers.now }
{
    let mut reads = Vec::new(alloc);
    add_all(&mut reads, readers, count).is_ok() && reads.as_slice() == wanted
}

fn dict_has_reads(alloc: Global, dict: &Dictionary, wanted: &[Read]) -> bool {
    match build(alloc, dict) {
        Ok(readers) => {
            let are_reads = are_reads(alloc, &readers, dict.fact_count(), wanted);
            drop(readers);
            are_reads
        }
        Err(NoMemory) => false,
    }
}

fn has_reads(alloc: Global, text: &str, wanted: &[Read]) -> bool {
    match accepted(alloc, text) {
        Some(dict) => {
            let has_reads = dict_has_reads(alloc, &dict, wanted);
            drop(dict);
            has_reads
        }
        None => false,
    }
}

const OF_SUM: &[Read] = &[(1, 3, false), (2, 3, false)];

const OF_CONDITIONS: &[Read] = &[
    (1, 3, false),
    (1, 4, false),
    (1, 5, false),
    (2, 3, false),
    (2, 4, false),
];

const OF_MEMBERS: &[Read] = &[
    (1, 4, false),
    (1, 5, false),
    (2, 4, false),
    (2, 5, false),
    (3, 6, false),
    (3, 7, false),
    (4, 6, false),
    (5, 7, false),
];

const OF_FIELDS: &[Read] = &[
    (2, 3, false),
    (2, 1, false),
    (4, 1, false),
    (5, 3, false),
    (5, 4, true),
];

fn facts_have_their_readers(alloc: Global) -> bool {
    has_reads(alloc, SUM, OF_SUM)
        && has_reads(alloc, SUM_OVER_A_PLACEHOLDER, OF_SUM)
        && has_reads(alloc, CONDITIONS, OF_CONDITIONS)
        && has_reads(alloc, AMOUNTS, &[(1, 6, false), (5, 6, false)])
}

fn fields_have_their_readers(alloc: Global) -> bool {
    has_reads(alloc, MEMBERS, OF_MEMBERS)
        && has_reads(alloc, CHECKED, &[])
        && has_reads(alloc, CASES, &[(1, 2, false)])
        && has_reads(alloc, FIELDS, OF_FIELDS)
}

#[test]
fn readers_come_once_by_rank(rt: HostRuntime) {
    assert!(rt; facts_have_their_readers(rt.alloc()));
    assert!(rt; fields_have_their_readers(rt.alloc()));
}
