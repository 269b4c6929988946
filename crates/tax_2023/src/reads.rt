// What the rows read, and their constants, by name.
use dict_source::ReadOp::Dependency;
use written_facts::Fixed::{Choice, DayOf, Dollar, DollarOf, Int, True};
use written_facts::Form;
use written_facts::Form::{Const, Read};

// ---- facts of the return

pub const DATE_OF_BIRTH: Form<'static> = Read(Dependency, "/dateOfBirth");

pub const BLIND: Form<'static> = Read(Dependency, "/blind");

pub const SPOUSE_DATE_OF_BIRTH: Form<'static> = Read(Dependency, "/spouseDateOfBirth");

pub const SPOUSE_BLIND: Form<'static> = Read(Dependency, "/spouseBlind");

pub const MARRIED: Form<'static> = Read(Dependency, "/married");

pub const CONSIDERED_UNMARRIED: Form<'static> = Read(Dependency, "/consideredUnmarried");

pub const FILE_JOINTLY: Form<'static> = Read(Dependency, "/fileJointly");

pub const SPOUSE_DIED: Form<'static> = Read(Dependency, "/spouseDied");

pub const REMARRIED: Form<'static> = Read(Dependency, "/remarried");

pub const CHILD_IN_HOME: Form<'static> = Read(Dependency, "/childInHome");

pub const PAID_HALF_OF_HOME: Form<'static> = Read(Dependency, "/paidHalfOfHome");

pub const QUALIFYING_PERSON: Form<'static> = Read(Dependency, "/qualifyingPerson");

pub const SPOUSE_ITEMIZES: Form<'static> = Read(Dependency, "/spouseItemizes");

pub const CAN_BE_CLAIMED: Form<'static> = Read(Dependency, "/canBeClaimed");

pub const EARNED_INCOME: Form<'static> = Read(Dependency, "/earnedIncome");

pub const OTHER_INCOME: Form<'static> = Read(Dependency, "/otherIncome");

pub const JOINT: Form<'static> = Read(Dependency, "/joint");

pub const UNMARRIED: Form<'static> = Read(Dependency, "/unmarried");

pub const FILING_STATUS: Form<'static> = Read(Dependency, "/filingStatus");

pub const BASIC_AMOUNT: Form<'static> = Read(Dependency, "/basicAmount");

pub const ADDITIONAL_AMOUNT: Form<'static> = Read(Dependency, "/additionalAmount");

pub const BOXES: Form<'static> = Read(Dependency, "/boxes");

pub const STANDARD_DEDUCTION: Form<'static> = Read(Dependency, "/standardDeduction");

pub const TOTAL_INCOME: Form<'static> = Read(Dependency, "/totalIncome");

// ---- facts of one dependent

pub const THEIR_DATE_OF_BIRTH: Form<'static> = Read(Dependency, "../dateOfBirth");

pub const THEIR_CHILD_RELATIONSHIP: Form<'static> = Read(Dependency, "../childRelationship");

pub const THEIR_STUDENT: Form<'static> = Read(Dependency, "../student");

pub const THEIR_DISABLED: Form<'static> = Read(Dependency, "../disabled");

pub const THEIR_LIVED_WITH_FILER: Form<'static> = Read(Dependency, "../livedWithFiler");

pub const THEIR_SELF_SUPPORTED: Form<'static> = Read(Dependency, "../selfSupported");

pub const THEIR_JOINT_RETURN: Form<'static> = Read(Dependency, "../jointReturn");

pub const THEIR_RELATED_OR_MEMBER: Form<'static> = Read(Dependency, "../relatedOrMember");

pub const THEIR_GROSS_INCOME: Form<'static> = Read(Dependency, "../grossIncome");

pub const THEIR_SUPPORTED_BY_FILER: Form<'static> = Read(Dependency, "../supportedByFiler");

pub const THEIR_UNDER_AGE: Form<'static> = Read(Dependency, "../underAge");

pub const THEIR_YOUNGER: Form<'static> = Read(Dependency, "../younger");

pub const THEIR_QUALIFYING_CHILD: Form<'static> = Read(Dependency, "../qualifyingChild");

pub const THEIR_QUALIFYING_RELATIVE: Form<'static> = Read(Dependency, "../qualifyingRelative");

// Under a condition on the dependents.
pub const IS_DEPENDENT: Form<'static> = Read(Dependency, "isDependent");

// ---- constants

pub const OTHERWISE: Form<'static> = Const(True);

pub const NONE: Form<'static> = Const(Int("0"));

pub const ONE: Form<'static> = Const(Int("1"));

pub const ZERO_DOLLARS: Form<'static> = Const(Dollar("0.00"));

pub const SINGLE: Form<'static> = Const(Choice("filingStatus", "single"));

pub const SEPARATELY: Form<'static> = Const(Choice("filingStatus", "marriedFilingSeparately"));

pub const JOINTLY: Form<'static> = Const(Choice("filingStatus", "marriedFilingJointly"));

pub const SURVIVING_SPOUSE: Form<'static> = Const(Choice(
    "filingStatus",
    "qualifyingSurvivingSpouse",
));

pub const HEAD_OF_HOUSEHOLD: Form<'static> = Const(Choice("filingStatus", "headOfHousehold"));

// ---- figures of the year

pub const BASIC_SINGLE: Form<'static> = Const(DollarOf("basic, single or separately"));

pub const BASIC_JOINTLY: Form<'static> = Const(DollarOf("basic, jointly or surviving spouse"));

pub const BASIC_HEAD: Form<'static> = Const(DollarOf("basic, head of household"));

pub const BOX_UNMARRIED: Form<'static> = Const(DollarOf("box, unmarried"));

pub const BOX_OTHERS: Form<'static> = Const(DollarOf("box, others"));

pub const CLAIMED_AT_LEAST: Form<'static> = Const(DollarOf("claimed, at least"));

pub const CLAIMED_ABOVE: Form<'static> = Const(DollarOf("claimed, above earned income"));

pub const GROSS_BELOW: Form<'static> = Const(DollarOf("gross income below"));

pub const OLD_BEFORE: Form<'static> = Const(DayOf("65, born before"));

pub const UNDER_19_AFTER: Form<'static> = Const(DayOf("under 19, born after"));

pub const UNDER_24_AFTER: Form<'static> = Const(DayOf("under 24, born after"));
