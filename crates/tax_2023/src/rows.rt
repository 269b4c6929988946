// The rows of the dictionary of a year: its facts, written out.
use crate::reads::*;
use dict_source::ManyOp::{Add, All, Any, GreaterOf, LesserOf, Subtract};
use dict_source::PickOp::{Filter, Find};
use dict_source::ReadOp::Count;
use dict_source::TwoOp::{Equal, GreaterThan, LessThan, Multiply};
use fact_json::OneName::Not;
use written_facts::Form::{Many, One, Pick, Read, Switch, Two};
use written_facts::WrittenFact::{Derived, Question, QuestionFrom};
use written_facts::{Kind, When, WrittenFact};

/// The names of the filing statuses.
pub const FILING_STATUSES: [&str; 5] = [
    "single",
    "marriedFilingSeparately",
    "marriedFilingJointly",
    "qualifyingSurvivingSpouse",
    "headOfHousehold",
];

/// What is asked of the filer and the spouse.
pub const FILER: &'static [WrittenFact<'static>] = &[
    Question("/dateOfBirth", Kind::Day, "When were you born?"),
    Question(
        "/blind",
        Kind::Boolean,
        "Are you blind on the last day of the year?",
    ),
    Question(
        "/spouseDateOfBirth",
        Kind::Day,
        "When was your spouse born?",
    ),
    Question(
        "/spouseBlind",
        Kind::Boolean,
        "Is your spouse blind on the last day of the year?",
    ),
    Question(
        "/married",
        Kind::Boolean,
        "Are you married on the last day of the year?",
    ),
    Question(
        "/consideredUnmarried",
        Kind::Boolean,
        "Did you live apart, and keep up a home for your child, so that you are considered unmarried?",
    ),
    Question(
        "/fileJointly",
        Kind::Boolean,
        "Do you and your spouse both choose a joint return?",
    ),
    Question(
        "/spouseDied",
        Kind::Boolean,
        "Did your spouse die in one of the two years before?",
    ),
    Question(
        "/remarried",
        Kind::Boolean,
        "Have you remarried since your spouse died, by the end of the year?",
    ),
    Question(
        "/childInHome",
        Kind::Boolean,
        "Did your child or stepchild, and no foster child, whom you can claim as a dependent, live in your home all year?",
    ),
    Question(
        "/paidHalfOfHome",
        Kind::Boolean,
        "Did you pay more than half of the cost of keeping up your home?",
    ),
    Question(
        "/qualifyingPerson",
        Kind::Boolean,
        "Is there a qualifying person for head of household?",
    ),
    Question(
        "/spouseItemizes",
        Kind::Boolean,
        "Does your spouse itemize deductions on a separate return?",
    ),
    Question(
        "/canBeClaimed",
        Kind::Boolean,
        "Can somebody else claim you as a dependent, or your spouse on a joint return, whether they do or not?",
    ),
    QuestionFrom(
        "/earnedIncome",
        Kind::Dollar,
        "0",
        "How much are your wages, tips and other pay for work, 0 or more?",
    ),
    Question(
        "/otherIncome",
        Kind::Dollar,
        "How much else belongs to your total income, with a minus before a loss?",
    ),
];

/// What follows of the return.
pub const RETURN: &'static [WrittenFact<'static>] = &[
    Derived("/joint", Kind::Boolean, Many(All, &[MARRIED, FILE_JOINTLY])),
    Derived(
        "/unmarried",
        Kind::Boolean,
        Many(Any, &[One(Not, &MARRIED), CONSIDERED_UNMARRIED]),
    ),
    Derived(
        "/filingStatus",
        Kind::Enum("filingStatus"),
        Switch(&[
            When(JOINT, JOINTLY),
            When(
                Many(
                    All,
                    &[
                        One(Not, &MARRIED),
                        SPOUSE_DIED,
                        One(Not, &REMARRIED),
                        CHILD_IN_HOME,
                        PAID_HALF_OF_HOME,
                    ],
                ),
                SURVIVING_SPOUSE,
            ),
            When(
                Many(All, &[UNMARRIED, PAID_HALF_OF_HOME, QUALIFYING_PERSON]),
                HEAD_OF_HOUSEHOLD,
            ),
            When(MARRIED, SEPARATELY),
            When(OTHERWISE, SINGLE),
        ]),
    ),
    Derived(
        "/basicAmount",
        Kind::Dollar,
        Switch(&[
            When(
                Many(
                    Any,
                    &[
                        Two(Equal, &FILING_STATUS, &JOINTLY),
                        Two(Equal, &FILING_STATUS, &SURVIVING_SPOUSE),
                    ],
                ),
                BASIC_JOINTLY,
            ),
            When(Two(Equal, &FILING_STATUS, &HEAD_OF_HOUSEHOLD), BASIC_HEAD),
            When(OTHERWISE, BASIC_SINGLE),
        ]),
    ),
    Derived(
        "/additionalAmount",
        Kind::Dollar,
        Switch(&[
            When(
                Many(
                    Any,
                    &[
                        Two(Equal, &FILING_STATUS, &SINGLE),
                        Two(Equal, &FILING_STATUS, &HEAD_OF_HOUSEHOLD),
                    ],
                ),
                BOX_UNMARRIED,
            ),
            When(OTHERWISE, BOX_OTHERS),
        ]),
    ),
    Derived(
        "/boxes",
        Kind::Int,
        Many(
            Add,
            &[
                Switch(&[
                    When(Two(LessThan, &DATE_OF_BIRTH, &OLD_BEFORE), ONE),
                    When(OTHERWISE, NONE),
                ]),
                Switch(&[When(BLIND, ONE), When(OTHERWISE, NONE)]),
                Switch(&[
                    When(
                        Many(
                            All,
                            &[JOINT, Two(LessThan, &SPOUSE_DATE_OF_BIRTH, &OLD_BEFORE)],
                        ),
                        ONE,
                    ),
                    When(OTHERWISE, NONE),
                ]),
                Switch(&[
                    When(Many(All, &[JOINT, SPOUSE_BLIND]), ONE),
                    When(OTHERWISE, NONE),
                ]),
            ],
        ),
    ),
    Derived(
        "/standardDeduction",
        Kind::Dollar,
        Switch(&[
            When(
                Many(
                    All,
                    &[Two(Equal, &FILING_STATUS, &SEPARATELY), SPOUSE_ITEMIZES],
                ),
                ZERO_DOLLARS,
            ),
            When(
                CAN_BE_CLAIMED,
                Many(
                    Add,
                    &[
                        Many(
                            LesserOf,
                            &[
                                BASIC_AMOUNT,
                                Many(
                                    GreaterOf,
                                    &[CLAIMED_AT_LEAST, Many(Add, &[EARNED_INCOME, CLAIMED_ABOVE])],
                                ),
                            ],
                        ),
                        Two(Multiply, &ADDITIONAL_AMOUNT, &BOXES),
                    ],
                ),
            ),
            When(
                OTHERWISE,
                Many(
                    Add,
                    &[BASIC_AMOUNT, Two(Multiply, &ADDITIONAL_AMOUNT, &BOXES)],
                ),
            ),
        ]),
    ),
    Derived(
        "/totalIncome",
        Kind::Dollar,
        Many(Add, &[EARNED_INCOME, OTHER_INCOME]),
    ),
    Derived(
        "/taxableIncome",
        Kind::Dollar,
        Many(
            GreaterOf,
            &[
                ZERO_DOLLARS,
                Many(Subtract, &[TOTAL_INCOME, STANDARD_DEDUCTION]),
            ],
        ),
    ),
];

/// The dependents, and what is asked of each.
pub const DEPENDENTS: &'static [WrittenFact<'static>] = &[
    Question(
        "/dependents",
        Kind::Collection,
        "Whom do you support or live with, other than your spouse?",
    ),
    Question(
        "/dependents/*/dateOfBirth",
        Kind::Day,
        "When were they born?",
    ),
    Question(
        "/dependents/*/childRelationship",
        Kind::Boolean,
        "Are they your child, stepchild or foster child, your brother or sister (by half or by step too), or a descendant of one of these?",
    ),
    Question(
        "/dependents/*/student",
        Kind::Boolean,
        "Were they a full-time student in some part of five months?",
    ),
    Question(
        "/dependents/*/disabled",
        Kind::Boolean,
        "Were they permanently and totally disabled at any time?",
    ),
    Question(
        "/dependents/*/livedWithFiler",
        Kind::Boolean,
        "Did they live with you for more than half of the year?",
    ),
    Question(
        "/dependents/*/selfSupported",
        Kind::Boolean,
        "Did they pay for more than half of their own support?",
    ),
    Question(
        "/dependents/*/jointReturn",
        Kind::Boolean,
        "Do they file a joint return, other than only to claim a refund?",
    ),
    Question(
        "/dependents/*/relatedOrMember",
        Kind::Boolean,
        "Are they your relative in one of the ways that Publication 501 lists, or did they live with you all year as a member of your household?",
    ),
    QuestionFrom(
        "/dependents/*/grossIncome",
        Kind::Dollar,
        "0",
        "How much was their gross income, 0 or more?",
    ),
    Question(
        "/dependents/*/supportedByFiler",
        Kind::Boolean,
        "Did you pay for more than half of their support?",
    ),
];

/// What follows of each dependent.
pub const TESTS: &'static [WrittenFact<'static>] = &[
    Derived(
        "/dependents/*/underAge",
        Kind::Boolean,
        Many(
            Any,
            &[
                Two(GreaterThan, &THEIR_DATE_OF_BIRTH, &UNDER_19_AFTER),
                Many(
                    All,
                    &[
                        THEIR_STUDENT,
                        Two(GreaterThan, &THEIR_DATE_OF_BIRTH, &UNDER_24_AFTER),
                    ],
                ),
            ],
        ),
    ),
    Derived(
        "/dependents/*/younger",
        Kind::Boolean,
        Many(
            Any,
            &[
                Two(GreaterThan, &THEIR_DATE_OF_BIRTH, &DATE_OF_BIRTH),
                Many(
                    All,
                    &[
                        JOINT,
                        Two(GreaterThan, &THEIR_DATE_OF_BIRTH, &SPOUSE_DATE_OF_BIRTH),
                    ],
                ),
            ],
        ),
    ),
    Derived(
        "/dependents/*/qualifyingChild",
        Kind::Boolean,
        Many(
            All,
            &[
                THEIR_CHILD_RELATIONSHIP,
                Many(
                    Any,
                    &[THEIR_DISABLED, Many(All, &[THEIR_UNDER_AGE, THEIR_YOUNGER])],
                ),
                THEIR_LIVED_WITH_FILER,
                One(Not, &THEIR_SELF_SUPPORTED),
                One(Not, &THEIR_JOINT_RETURN),
            ],
        ),
    ),
    Derived(
        "/dependents/*/qualifyingRelative",
        Kind::Boolean,
        Many(
            All,
            &[
                One(Not, &THEIR_QUALIFYING_CHILD),
                THEIR_RELATED_OR_MEMBER,
                Two(LessThan, &THEIR_GROSS_INCOME, &GROSS_BELOW),
                THEIR_SUPPORTED_BY_FILER,
            ],
        ),
    ),
    Derived(
        "/dependents/*/isDependent",
        Kind::Boolean,
        Many(Any, &[THEIR_QUALIFYING_CHILD, THEIR_QUALIFYING_RELATIVE]),
    ),
];

/// What follows of all dependents.
pub const COUNTS: &'static [WrittenFact<'static>] = &[
    Derived(
        "/dependentList",
        Kind::ListOf("/dependents"),
        Pick(Filter, "/dependents", &IS_DEPENDENT),
    ),
    Derived(
        "/dependentCount",
        Kind::Int,
        Read(Count, "/dependents/*/isDependent"),
    ),
    Derived(
        "/qualifyingChildCount",
        Kind::Int,
        Read(Count, "/dependents/*/qualifyingChild"),
    ),
    Derived(
        "/firstDependent",
        Kind::ItemOf("/dependents"),
        Pick(Find, "/dependents", &IS_DEPENDENT),
    ),
];
