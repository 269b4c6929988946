//! The nodes of the tax years, fact by fact, each compared with a text that was worked out by hand from the rules.

use crate::node_texts::{put, put_number, write_node};
use dictionary::Dictionary;
use fact_values::NoMemory;
use node_compile::{Compiled, compile};
use node_eval::Node;
use std::alloc::Global;
use std::process::Abort;
use std::test::Fail;
use tax_2023::{year_2023, year_2024};

// The facts in their order, with figures of the year by name: the number, the path, and the node of what follows from
// other facts. No fact has a placeholder. `option 0 K` is filing status K, from 0: single, married filing separately,
// jointly, surviving spouse, head of household.
const NODES: &str = "1 /dateOfBirth
2 /blind
3 /spouseDateOfBirth
4 /spouseBlind
5 /married
6 /consideredUnmarried
7 /fileJointly
8 /spouseDied
9 /remarried
10 /childInHome
11 /paidHalfOfHome
12 /qualifyingPerson
13 /spouseItemizes
14 /canBeClaimed
15 /earnedIncome
16 /otherIncome
17 /joint All [Dependency /5] [Dependency /7]
18 /unmarried Any [Not [Dependency /5]] [Dependency /6]
19 /filingStatus Switch [Dependency /17][option 0 2] [All [Not [Dependency /5]] [Dependency /8] [Not [Dependency /9]] [Dependency /10] [Dependency /11]][option 0 3] [All [Dependency /18] [Dependency /11] [Dependency /12]][option 0 4] [Dependency /5][option 0 1] [true][option 0 0]
20 /basicAmount Switch [Any [Equal [Dependency /19] [option 0 2]] [Equal [Dependency /19] [option 0 3]]][BASIC_JOINTLY] [Equal [Dependency /19] [option 0 4]][BASIC_HEAD] [true][BASIC_SINGLE]
21 /additionalAmount Switch [Any [Equal [Dependency /19] [option 0 0]] [Equal [Dependency /19] [option 0 4]]][BOX_UNMARRIED] [true][BOX_OTHERS]
22 /boxes Add [Switch [LessThan [Dependency /1] [OLD_BEFORE]][1] [true][0]] [Switch [Dependency /2][1] [true][0]] [Switch [All [Dependency /17] [LessThan [Dependency /3] [OLD_BEFORE]]][1] [true][0]] [Switch [All [Dependency /17] [Dependency /4]][1] [true][0]]
23 /standardDeduction Switch [All [Equal [Dependency /19] [option 0 1]] [Dependency /13]][0c] [Dependency /14][Add [LesserOf [Dependency /20] [GreaterOf [CLAIMED_AT_LEAST] [Add [Dependency /15] [CLAIMED_ABOVE]]]] [Multiply [Dependency /21] [Dependency /22]]] [true][Add [Dependency /20] [Multiply [Dependency /21] [Dependency /22]]]
24 /totalIncome Add [Dependency /15] [Dependency /16]
25 /taxableIncome GreaterOf [0c] [Subtract [Dependency /24] [Dependency /23]]
26 /dependents
27 /dependents/*/dateOfBirth
28 /dependents/*/childRelationship
29 /dependents/*/student
30 /dependents/*/disabled
31 /dependents/*/livedWithFiler
32 /dependents/*/selfSupported
33 /dependents/*/jointReturn
34 /dependents/*/relatedOrMember
35 /dependents/*/grossIncome
36 /dependents/*/supportedByFiler
37 /dependents/*/underAge Any [GreaterThan [Dependency ../27] [UNDER_19_AFTER]] [All [Dependency ../29] [GreaterThan [Dependency ../27] [UNDER_24_AFTER]]]
38 /dependents/*/younger Any [GreaterThan [Dependency ../27] [Dependency /1]] [All [Dependency /17] [GreaterThan [Dependency ../27] [Dependency /3]]]
39 /dependents/*/qualifyingChild All [Dependency ../28] [Any [Dependency ../30] [All [Dependency ../37] [Dependency ../38]]] [Dependency ../31] [Not [Dependency ../32]] [Not [Dependency ../33]]
40 /dependents/*/qualifyingRelative All [Not [Dependency ../39]] [Dependency ../34] [LessThan [Dependency ../35] [GROSS_BELOW]] [Dependency ../36]
41 /dependents/*/isDependent Any [Dependency ../39] [Dependency ../40]
42 /dependentList Filter /26 [Dependency 41]
43 /dependentCount Count /26/*/41
44 /qualifyingChildCount Count /26/*/39
45 /firstDependent Find /26 [Dependency 41]";

// Amounts are in cents, and days are counted from 1970-01-01.
const FIGURES_OF_2023: &str = "BASIC_SINGLE 1385000c
BASIC_JOINTLY 2770000c
BASIC_HEAD 2080000c
BOX_UNMARRIED 185000c
BOX_OTHERS 150000c
CLAIMED_AT_LEAST 125000c
CLAIMED_ABOVE 40000c
GROSS_BELOW 470000c
OLD_BEFORE day -4017
UNDER_19_AFTER day 12783
UNDER_24_AFTER day 10956";

const FIGURES_OF_2024: &str = "BASIC_SINGLE 1460000c
BASIC_JOINTLY 2920000c
BASIC_HEAD 2190000c
BOX_UNMARRIED 195000c
BOX_OTHERS 155000c
CLAIMED_AT_LEAST 130000c
CLAIMED_ABOVE 45000c
GROSS_BELOW 505000c
OLD_BEFORE day -3652
UNDER_19_AFTER day 13148
UNDER_24_AFTER day 11322";

// The text with the figure of this line in place of its name.
fn with_figure(alloc: Global, text: &str, line: &str) -> Result<String, NoMemory> {
    let (name, figure) = line.split_once(' ').unwrap_or((line, ""));
    Ok(text.replace(alloc, name, figure)?)
}

// The text with the figures of all these lines.
fn with_figures(alloc: Global, figures: &str) -> Result<String, NoMemory> {
    let mut text = String::from_str(alloc, NODES)?;
    for line in figures.lines() {
        text = with_figure(alloc, text.as_str(), line)?;
    }
    Ok(text)
}

fn write_part(text: &mut String, word: &str, node: Option<&Node>) -> Result<(), NoMemory> {
    match node {
        None => Ok(()),
        Some(node) => {
            put(text, word)?;
            write_node(text, node)
        }
    }
}

fn path_of(dict: &Dictionary, fact: u32) -> &str {
    match dict.source().fact(fact) {
        None => "",
        Some(fact) => fact.path_text.as_str(),
    }
}

fn write_fact(
    text: &mut String,
    dict: &Dictionary,
    all: &Compiled,
    fact: u32,
) -> Result<(), NoMemory> {
    put_number(text, "", fact as i64)?;
    put(text, " ")?;
    put(text, path_of(dict, fact))?;
    write_part(text, " ", all.main(fact))?;
    write_part(text, " else ", all.placeholder(fact))
}

// Whether the line has the fact's number, its path, its main node and its placeholder, where it has them.
fn is_of_line(alloc: Global, dict: &Dictionary, all: &Compiled, fact: u32, line: &str) -> bool {
    let mut text = String::new(alloc);
    write_fact(&mut text, dict, all, fact).is_ok() && text.as_str() == line
}

fn expect_lines(rt: &impl Abort, alloc: Global, dict: &Dictionary, all: &Compiled, text: &str) {
    assert!(rt; dict.fact_count() == 45);
    let mut lines = text.lines();
    for fact in 1..46 {
        let line = lines.next().unwrap_or("");
        assert!(rt; is_of_line(alloc, dict, all, fact, line), "{line}");
    }
}

fn expect_nodes(
    rt: &impl Abort,
    alloc: Global,
    dict: &Dictionary,
    all: &Compiled,
    figures: &str,
) -> Result<(), NoMemory> {
    let text = with_figures(alloc, figures)?;
    expect_lines(rt, alloc, dict, all, text.as_str());
    Ok(())
}

fn expect_year(
    rt: &impl Abort,
    alloc: Global,
    dict: &Dictionary,
    figures: &str,
) -> Result<(), NoMemory> {
    let all = compile(alloc, dict)?;
    let end = expect_nodes(rt, alloc, dict, &all, figures);
    drop(all);
    end
}

#[test]
fn each_fact_of_2023_has_the_nodes_of_its_rule(rt: HostRuntime) -> Result<(), Fail> {
    let dict = year_2023(rt.alloc())?;
    let end = expect_year(&rt, rt.alloc(), &dict, FIGURES_OF_2023);
    drop(dict);
    end?;
    Ok(())
}

#[test]
fn each_fact_of_2024_has_the_nodes_of_its_rule(rt: HostRuntime) -> Result<(), Fail> {
    let dict = year_2024(rt.alloc())?;
    let end = expect_year(&rt, rt.alloc(), &dict, FIGURES_OF_2024);
    drop(dict);
    end?;
    Ok(())
}
