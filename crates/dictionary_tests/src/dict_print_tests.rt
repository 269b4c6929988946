//! Tests of `dict_print`: what is printed of a dictionary, and how it is laid out.
use dict_print::{print, print_facts};
use dict_source::DictSource;
use dict_tree::{TreeFault, read};
use std::alloc::Global;
use std::test::Fail;

// Of each kind of part, with members in another order, descriptions and an empty list of limits.
const WRITTEN: &[u8] =
    br#"{"facts":[{"path":"/c","writable":"Collection","description":"people"},{"path":"/c/*/k","writable":"Boolean","placeholder":["False"]},{"path":"/c/*/t","writable":"Text","limits":[["MaxLength","9"],["Check","digits"]]},{"path":"/c/*/v","writable":"Int","limits":[["Min","0"],["Max","10"]],"placeholder":["Int","1"]},{"path":"/s","writable":"Enum(status)","limits":[]},{"path":"/l","derived":"Collection(/c)","is":["Filter","/c",["Dependency","k"]]},{"description":"\"k\"","path":"/i","derived":"Item(/c)","is":["Find","/c",["Not",["Dependency","k"]]]},{"path":"/m","derived":"Boolean","conditional":[["Equal",["Dependency","/s"],["Enum","status","married"]],["True"]],"is":["All",["GreaterThan",["CollectionSum","/c/*/v"],["CollectionSize","/l"]],["IsComplete","/s"]],"placeholder":["False"]},{"path":"/d","derived":"Dollar","is":["Switch",["Case",["Dependency","/m"],["Dollar","1.50"]],["Case",["True"],["Subtract",["Dollar","2"],["Round",["Dollar","0.70"]]]]]}],"version":"2","description":"d","enums":[{"name":"status","options":["single","married"]},{"name":"unused","options":["b","a"]}]}"#;

// The same as it is printed, without spaces and ends of lines.
const PRINTED: &[u8] =
    br#"{"enums":[{"name":"status","options":["single","married"]},{"name":"unused","options":["b","a"]}],"facts":[{"description":"people","path":"/c","writable":"Collection"},{"path":"/c/*/k","placeholder":["False"],"writable":"Boolean"},{"limits":[["MaxLength","9"],["Check","digits"]],"path":"/c/*/t","writable":"Text"},{"limits":[["Min","0"],["Max","10"]],"path":"/c/*/v","placeholder":["Int","1"],"writable":"Int"},{"path":"/s","writable":"Enum(status)"},{"derived":"Collection(/c)","is":["Filter","/c",["Dependency","k"]],"path":"/l"},{"derived":"Item(/c)","description":"\"k\"","is":["Find","/c",["Not",["Dependency","k"]]],"path":"/i"},{"conditional":[["Equal",["Dependency","/s"],["Enum","status","married"]],["True"]],"derived":"Boolean","is":["All",["GreaterThan",["CollectionSum","/c/*/v"],["CollectionSize","/l"]],["IsComplete","/s"]],"path":"/m","placeholder":["False"]},{"derived":"Dollar","is":["Switch",["Case",["Dependency","/m"],["Dollar","1.50"]],["Case",["True"],["Subtract",["Dollar","2"],["Round",["Dollar","0.70"]]]]],"path":"/d"}],"version":"2"}"#;

const LINES: &[u8] =
    b"/c writable Collection\n/c/*/k writable Boolean\n/c/*/t writable Text\n/c/*/v writable Int\n/s writable Enum(status)\n/l derived Collection(/c)\n/i derived Item(/c)\n/m derived Boolean\n/d derived Dollar\n";

const SMALL: &[u8] =
    br#"{"version":"1","facts":[{"path":"/a","writable":"Enum(e)"},{"path":"/s","derived":"Boolean","is":["IsComplete","/a"]}],"enums":[{"name":"e","options":["b","a"]}]}"#;

const LAID_OUT: &[u8] = br#"{
  "enums": [
    {
      "name": "e",
      "options": [
        "b",
        "a"
      ]
    }
  ],
  "facts": [
    {
      "path": "/a",
      "writable": "Enum(e)"
    },
    {
      "derived": "Boolean",
      "is": [
        "IsComplete",
        "/a"
      ],
      "path": "/s"
    }
  ],
  "version": "2"
}"#;

const BARE: &[u8] = br#"{"version":"1","facts":[]}"#;

fn source_of(alloc: Global, bytes: &[u8]) -> Option<DictSource> {
    read(alloc, bytes).ok()
}

fn printed(alloc: Global, bytes: &[u8]) -> Option<Vec<u8>> {
    let source = source_of(alloc, bytes)?;
    print(alloc, &source).ok()
}

// The bytes but for spaces and ends of lines.
fn shorn(alloc: Global, bytes: &[u8]) -> Option<Vec<u8>> {
    let mut out = Vec::new(alloc);
    for byte in bytes {
        if *byte != b' ' && *byte != b'\n' {
            out.push(*byte).ok()?;
        }
    }
    Some(out)
}

fn shorn_print(alloc: Global, bytes: &[u8]) -> Option<Vec<u8>> {
    let text = printed(alloc, bytes)?;
    shorn(alloc, text.as_slice())
}

fn prints(alloc: Global, bytes: &[u8], text: &[u8]) -> bool {
    match shorn_print(alloc, bytes) {
        Some(found) => found.as_slice() == text,
        None => false,
    }
}

#[test]
fn each_part_is_printed(rt: HostRuntime) -> Result<(), Fail> {
    assert!(rt; prints(rt.alloc(), WRITTEN, PRINTED));
    Ok(())
}

#[test]
fn what_is_printed_prints_as_itself(rt: HostRuntime) -> Result<(), Fail> {
    assert!(rt; prints(rt.alloc(), PRINTED, PRINTED));
    Ok(())
}

#[test]
fn lists_that_are_empty_are_left_out(rt: HostRuntime) -> Result<(), Fail> {
    assert!(rt; prints(rt.alloc(), BARE, br#"{"facts":[],"version":"2"}"#));
    Ok(())
}

const LAW: &[u8] =
    br#"{"facts":[{"derived":"Int","is":["AgeOn",["Day","2000-02-29"],["Day","2018-02-28"]],"path":"/age"}],"version":"law-1"}"#;

#[test]
fn law_profile_is_printed_as_such(rt: HostRuntime) -> Result<(), Fail> {
    assert!(rt; prints(rt.alloc(), LAW, LAW));
    Ok(())
}

const TABLES: &[u8] =
    br#"{"enums":[{"name":"size","options":["small","large"]}],"facts":[{"path":"/n","writable":"Int"},{"derived":"Enum(size)","is":["Lookup","size",["Dependency","/n"]],"path":"/size"}],"tables":[{"else":"small","from":"Int","name":"size","rows":[["4","large"]],"to":"Enum(size)"},{"else":"0.00","from":"Day","name":"deduction","rows":[["2023-10-01","198.00"],["2024-10-01","204.00"]],"to":"Dollar"},{"else":"no","from":"Dollar","name":"word","rows":[["-1.50","yes"]],"to":"Text"},{"else":"1/2","from":"Int","name":"share","rows":[],"to":"Rational"}],"version":"law-1"}"#;

#[test]
fn tables_are_printed_as_they_were_read(rt: HostRuntime) -> Result<(), Fail> {
    assert!(rt; prints(rt.alloc(), TABLES, TABLES));
    Ok(())
}

const LAW_IN_VERSION_2: &[u8] =
    br#"{"version":"2","facts":[{"path":"/a","writable":"Day"},{"path":"/m","derived":"Int","is":["MonthOf",["Dependency","/a"]]}]}"#;

fn second_fact_is_refused(alloc: Global) -> bool {
    match read(alloc, LAW_IN_VERSION_2) {
        Ok(_) => false,
        Err(fault) => fault == TreeFault::Shape(2),
    }
}

#[test]
fn version_2_has_no_operator_of_the_law_profile(rt: HostRuntime) -> Result<(), Fail> {
    assert!(rt; second_fact_is_refused(rt.alloc()));
    Ok(())
}

fn is_laid_out(alloc: Global) -> bool {
    match printed(alloc, SMALL) {
        Some(text) => text.as_slice() == LAID_OUT,
        None => false,
    }
}

#[test]
fn print_is_laid_out_over_lines(rt: HostRuntime) -> Result<(), Fail> {
    assert!(rt; is_laid_out(rt.alloc()));
    Ok(())
}

fn lines_of(alloc: Global, bytes: &[u8]) -> Option<Vec<u8>> {
    let source = source_of(alloc, bytes)?;
    print_facts(alloc, &source).ok()
}

fn are_listed(alloc: Global) -> bool {
    match lines_of(alloc, WRITTEN) {
        Some(text) => text.as_slice() == LINES,
        None => false,
    }
}

#[test]
fn facts_are_listed(rt: HostRuntime) -> Result<(), Fail> {
    assert!(rt; are_listed(rt.alloc()));
    Ok(())
}
