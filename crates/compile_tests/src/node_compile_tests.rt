//! The nodes of small dictionaries, each compared with a text that was worked out by hand.
use crate::dictionaries::{
    AMOUNTS, CASES, CHECKED, CONDITIONS, MEMBERS, SUM, SUM_OVER_A_PLACEHOLDER, accepted,
};
use crate::node_texts::{put, put_number, write_node};
use dictionary::Dictionary;
use fact_values::NoMemory;
use node_compile::{Compiled, compile};
use node_eval::Node;
use std::alloc::Global;

// ---- all nodes of a dictionary, each in a line of its own

fn write_line(
    text: &mut String,
    fact: u32,
    word: &str,
    node: Option<&Node>,
) -> Result<(), NoMemory> {
    match node {
        None => Ok(()),
        Some(node) => {
            put_number(text, "", fact as i64)?;
            put(text, word)?;
            write_node(text, node)?;
            put(text, "\n")
        }
    }
}

fn write_all(text: &mut String, all: &Compiled, count: u32) -> Result<(), NoMemory> {
    for place in 0..count {
        let fact = place + 1;
        write_line(text, fact, " ", all.main(fact))?;
        write_line(text, fact, " else ", all.placeholder(fact))?;
    }
    Ok(())
}

fn text_of_nodes(alloc: Global, all: &Compiled, count: u32) -> Option<String> {
    let mut text = String::new(alloc);
    write_all(&mut text, all, count).ok()?;
    Some(text)
}

fn text_of_facts(alloc: Global, dict: &Dictionary) -> Option<String> {
    match compile(alloc, dict) {
        Ok(all) => {
            let text = text_of_nodes(alloc, &all, dict.fact_count());
            drop(all);
            text
        }
        Err(NoMemory) => None,
    }
}

// The nodes of the facts of a dictionary.
fn text_of(alloc: Global, dictionary: &str) -> Option<String> {
    match accepted(alloc, dictionary) {
        Some(dict) => {
            let text = text_of_facts(alloc, &dict);
            drop(dict);
            text
        }
        None => None,
    }
}

fn has_nodes(alloc: Global, dictionary: &str, nodes: &str) -> bool {
    match text_of(alloc, dictionary) {
        Some(text) => text.as_str() == nodes,
        None => false,
    }
}

// ---- the dictionaries, and their nodes as they were worked out by hand

const CONDITIONAL: &str =
    r#"{"version":"2","facts":[{"path":"/p","writable":"Boolean"},{"path":"/a","writable":"Int"},{"path":"/x","derived":"Int","is":["Dependency","/a"],"conditional":[["Dependency","/p"],["Int","7"]]}]}"#;

const KINDS: &str =
    r#"{"version":"1","enums":[{"name":"size","options":["small"]},{"name":"color","options":["red","green"]}],"facts":[
{"path":"/day","derived":"Day","is":["Day","1970-01-02"]},
{"path":"/text","derived":"Text","is":["Text","a b"]},
{"path":"/color","derived":"Enum(color)","is":["Enum","color","green"]},
{"path":"/operations","derived":"Boolean","is":["Any",["Not",["True"]],["GreaterThan",["Round",["Dollar","1.50"]],["Dollar","1"]]]}
]}"#;

const LOOKUPS: &str = r#"{"version":"law-1","tables":[
{"name":"least","from":"Int","to":"Dollar","rows":[["1","24"]],"else":"0"},
{"name":"most","from":"Int","to":"Dollar","rows":[["1","291"],["2","535"]],"else":"0"}
],"facts":[
{"path":"/size","writable":"Int"},
{"path":"/most","derived":"Dollar","is":["Lookup","most",["Dependency","/size"]]},
{"path":"/least","derived":"Dollar","is":["Lookup","least",["Dependency","/size"]]}
]}"#;

// Each form of use path, outside of conditions and under one, in a fact of a member too.
const PATHS: &str = r#"{"version":"2","facts":[
{"path":"/n","writable":"Int","placeholder":["Int","3"]},
{"path":"/c","writable":"Collection"},
{"path":"/c/*/n","writable":"Int"},
{"path":"/c/*/m","writable":"Dollar"},
{"path":"/c/*/ok","writable":"Boolean"},
{"path":"/i","derived":"Item(/c)","is":["Find","/c",["Dependency","ok"]]},
{"path":"/c/*/i","derived":"Item(/c)","is":["Dependency","/i"]},
{"path":"/c/*/same","derived":"Int","is":["Dependency","../n"]},
{"path":"/through","derived":"Int","is":["Dependency","/i/n"]},
{"path":"/c/*/sameThrough","derived":"Int","is":["Dependency","../i/n"]},
{"path":"/ints","derived":"Int","is":["CollectionSum","/c/*/n"]},
{"path":"/dollars","derived":"Dollar","is":["CollectionSum","/c/*/m"]},
{"path":"/count","derived":"Int","is":["Count","/c/*/ok"]},
{"path":"/size","derived":"Int","is":["CollectionSize","/c"]},
{"path":"/d","writable":"Collection"},
{"path":"/d/*/ok","writable":"Boolean"},
{"path":"/c/*/other","derived":"Item(/d)","is":["Find","/d",["All",["Dependency","ok"],["Dependency","../ok"],["IsComplete","/n"],["IsComplete","/i/n"],["IsComplete","../i/n"]]]}
]}"#;

const NODES_OF_PATHS: &str = "1 else 3
6 Find /2 [Dependency 5]
7 Dependency /6
8 Dependency ../3
9 Dependency /6/3
10 Dependency ../7/3
11 SumInt /2/*/3
12 SumDollar /2/*/4
13 Count /2/*/5
14 CollectionSize /2
17 Find /15 [All [Dependency 16] [Dependency ../5] [IsComplete /1] [IsComplete /6/3] [IsComplete ../7/3]]
";

const NODES_OF_CONDITIONS: &str = "3 All [Dependency /1] [Dependency /2]
4 Switch [Dependency /1][1] [Dependency /2][2]
5 IsComplete /1
";

const NODES_OF_MEMBERS: &str = "4 Filter /1 [Dependency 2]
5 Find /1 [Dependency 2]
6 SumInt /4/*/3
7 Dependency /5/3
";

fn have_nodes(alloc: Global) -> bool {
    has_nodes(alloc, SUM, "3 Add [Dependency /1] [Dependency /2]\n")
        && has_nodes(alloc, CONDITIONS, NODES_OF_CONDITIONS)
        && has_nodes(alloc, MEMBERS, NODES_OF_MEMBERS)
        && has_nodes(alloc, CHECKED, "")
}

fn have_nodes_with_placeholders_and_conditionals(alloc: Global) -> bool {
    has_nodes(
        alloc,
        SUM_OVER_A_PLACEHOLDER,
        "2 else 0c\n3 Add [Dependency /1] [Dependency /2]\n",
    ) && has_nodes(
        alloc,
        CASES,
        "1 else false\n2 Switch [Dependency /1][1] [true][2]\n",
    ) && has_nodes(
        alloc,
        CONDITIONAL,
        "3 Switch [Dependency /1][7] [true][Dependency /2]\n",
    )
}

#[test]
fn facts_have_the_nodes_of_their_expressions(rt: HostRuntime) {
    assert!(rt; have_nodes(rt.alloc()));
    assert!(rt; have_nodes_with_placeholders_and_conditionals(rt.alloc()));
}

const NODES_OF_AMOUNTS: &str = "2 Add [999999999999999c] [1c] [-1c]
3 Add [999999999999999c] [1c]
4 Multiply [10005c] [1:2]
5 Divide [100c] [0]
6 Any [Equal [Dependency /5] [0c]] [Dependency /1]
";

const NODES_OF_KINDS: &str = "1 day 1
2 a b
3 option 1 1
4 Any [Not [true]] [GreaterThan [Round [150c]] [100c]]
";

const NODES_OF_LOOKUPS: &str = "2 Lookup most [Dependency /1]
3 Lookup least [Dependency /1]
";

#[test]
fn constants_are_read_and_operations_kept(rt: HostRuntime) {
    assert!(rt; has_nodes(rt.alloc(), AMOUNTS, NODES_OF_AMOUNTS));
    assert!(rt; has_nodes(rt.alloc(), KINDS, NODES_OF_KINDS));
    assert!(rt; has_nodes(rt.alloc(), LOOKUPS, NODES_OF_LOOKUPS));
}

#[test]
fn each_path_has_its_reader(rt: HostRuntime) {
    assert!(rt; has_nodes(rt.alloc(), PATHS, NODES_OF_PATHS));
}
