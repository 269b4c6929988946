// What the rows read, and their constants, by name.
use dict_source::ManyOp::Any;
use dict_source::ReadOp::Dependency;
use dict_source::TwoOp::Equal;
use written_facts::Fixed::{Choice, DayOf, Dollar, Int, Rational, True};
use written_facts::Form;
use written_facts::Form::{Const, Many, Read, Two};

// ---- facts of the return

pub const FILING_STATUS: Form<'static> = Read(Dependency, "/filingStatus");

pub const TOTAL_INCOME: Form<'static> = Read(Dependency, "/totalIncome");

pub const TAXABLE_INCOME: Form<'static> = Read(Dependency, "/taxableIncome");

pub const END_10: Form<'static> = Read(Dependency, "/end10");

pub const END_12: Form<'static> = Read(Dependency, "/end12");

pub const END_22: Form<'static> = Read(Dependency, "/end22");

pub const END_24: Form<'static> = Read(Dependency, "/end24");

pub const END_32: Form<'static> = Read(Dependency, "/end32");

pub const END_35: Form<'static> = Read(Dependency, "/end35");

pub const TAX_10: Form<'static> = Read(Dependency, "/tax10");

pub const TAX_12: Form<'static> = Read(Dependency, "/tax12");

pub const TAX_22: Form<'static> = Read(Dependency, "/tax22");

pub const TAX_24: Form<'static> = Read(Dependency, "/tax24");

pub const TAX_32: Form<'static> = Read(Dependency, "/tax32");

pub const TAX_35: Form<'static> = Read(Dependency, "/tax35");

pub const TAX_37: Form<'static> = Read(Dependency, "/tax37");

pub const SCHEDULE_TAX: Form<'static> = Read(Dependency, "/scheduleTax");

pub const CREDIT_CHILD_COUNT: Form<'static> = Read(Dependency, "/creditChildCount");

pub const OTHER_DEPENDENT_COUNT: Form<'static> = Read(Dependency, "/otherDependentCount");

pub const CREDIT_BASE: Form<'static> = Read(Dependency, "/creditBase");

pub const EXCESS: Form<'static> = Read(Dependency, "/excess");

pub const REDUCTION: Form<'static> = Read(Dependency, "/reduction");

pub const CHILD_CREDIT: Form<'static> = Read(Dependency, "/childCredit");

// ---- facts of one dependent

pub const THEIR_DATE_OF_BIRTH: Form<'static> = Read(Dependency, "../dateOfBirth");

pub const THEIR_QUALIFYING_CHILD: Form<'static> = Read(Dependency, "../qualifyingChild");

pub const THEY_DEPEND: Form<'static> = Read(Dependency, "../isDependent");

pub const THEIR_HAS_NUMBER: Form<'static> = Read(Dependency, "../hasNumber");

pub const THEIR_CREDIT_CHILD: Form<'static> = Read(Dependency, "../creditChild");

// ---- filing statuses

pub const JOINTLY: Form<'static> = Const(Choice("filingStatus", "marriedFilingJointly"));

pub const SURVIVING_SPOUSE: Form<'static> = Const(Choice(
    "filingStatus",
    "qualifyingSurvivingSpouse",
));

pub const HEAD_OF_HOUSEHOLD: Form<'static> = Const(Choice("filingStatus", "headOfHousehold"));

pub const SEPARATELY: Form<'static> = Const(Choice("filingStatus", "marriedFilingSeparately"));

pub const IS_JOINT: Form<'static> = Two(Equal, &FILING_STATUS, &JOINTLY);

// Jointly, or as a surviving spouse.
pub const IS_COUPLE: Form<'static> = Many(
    Any,
    &[IS_JOINT, Two(Equal, &FILING_STATUS, &SURVIVING_SPOUSE)],
);

pub const IS_HEAD: Form<'static> = Two(Equal, &FILING_STATUS, &HEAD_OF_HOUSEHOLD);

pub const IS_SEPARATE: Form<'static> = Two(Equal, &FILING_STATUS, &SEPARATELY);

// ---- constants

pub const OTHERWISE: Form<'static> = Const(True);

pub const ZERO_DOLLARS: Form<'static> = Const(Dollar("0.00"));

pub const RATE_10: Form<'static> = Const(Rational("1/10"));

pub const RATE_12: Form<'static> = Const(Rational("12/100"));

pub const RATE_22: Form<'static> = Const(Rational("22/100"));

pub const RATE_24: Form<'static> = Const(Rational("24/100"));

pub const RATE_32: Form<'static> = Const(Rational("32/100"));

pub const RATE_35: Form<'static> = Const(Rational("35/100"));

pub const RATE_37: Form<'static> = Const(Rational("37/100"));

// Who was born later is under 17 at the end of the year.
pub const UNDER_17_AFTER: Form<'static> = Const(DayOf("under 17, born after"));

pub const FOR_A_CHILD: Form<'static> = Const(Dollar("2000.00"));

pub const FOR_ANOTHER: Form<'static> = Const(Dollar("500.00"));

pub const LIMIT_JOINTLY: Form<'static> = Const(Dollar("400000.00"));

pub const LIMIT_OTHERS: Form<'static> = Const(Dollar("200000.00"));

// What is added before a thousand is rounded to the nearest one, so that it is rounded up.
pub const BELOW_HALF: Form<'static> = Const(Dollar("494.99"));

pub const THOUSAND: Form<'static> = Const(Int("1000"));

pub const FOR_A_THOUSAND: Form<'static> = Const(Int("50"));
