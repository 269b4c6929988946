// The rows that this crate adds to those of the year: the ends of the bands, the tax and the credit.
use crate::reads::*;
use dict_source::ManyOp::{Add, All, GreaterOf, LesserOf, Subtract};
use dict_source::ReadOp::Count;
use dict_source::TwoOp::{Divide, GreaterThan, Multiply};
use fact_json::OneName::{Not, Round};
use written_facts::Fixed::DollarOf;
use written_facts::Form::{Const, Many, One, Read, Switch, Two};
use written_facts::WrittenFact::{Derived, Question};
use written_facts::{Form, Kind, When, WrittenFact};

/// The upper ends of the bands.
pub const ENDS: &'static [WrittenFact<'static>] = &[
    Derived(
        "/end10",
        Kind::Dollar,
        Switch(&[
            When(IS_COUPLE, Const(DollarOf("10 percent, couple"))),
            When(IS_HEAD, Const(DollarOf("10 percent, head of household"))),
            When(IS_SEPARATE, Const(DollarOf("10 percent, separately"))),
            When(OTHERWISE, Const(DollarOf("10 percent, single"))),
        ]),
    ),
    Derived(
        "/end12",
        Kind::Dollar,
        Switch(&[
            When(IS_COUPLE, Const(DollarOf("12 percent, couple"))),
            When(IS_HEAD, Const(DollarOf("12 percent, head of household"))),
            When(IS_SEPARATE, Const(DollarOf("12 percent, separately"))),
            When(OTHERWISE, Const(DollarOf("12 percent, single"))),
        ]),
    ),
    Derived(
        "/end22",
        Kind::Dollar,
        Switch(&[
            When(IS_COUPLE, Const(DollarOf("22 percent, couple"))),
            When(IS_HEAD, Const(DollarOf("22 percent, head of household"))),
            When(IS_SEPARATE, Const(DollarOf("22 percent, separately"))),
            When(OTHERWISE, Const(DollarOf("22 percent, single"))),
        ]),
    ),
    Derived(
        "/end24",
        Kind::Dollar,
        Switch(&[
            When(IS_COUPLE, Const(DollarOf("24 percent, couple"))),
            When(IS_HEAD, Const(DollarOf("24 percent, head of household"))),
            When(IS_SEPARATE, Const(DollarOf("24 percent, separately"))),
            When(OTHERWISE, Const(DollarOf("24 percent, single"))),
        ]),
    ),
    Derived(
        "/end32",
        Kind::Dollar,
        Switch(&[
            When(IS_COUPLE, Const(DollarOf("32 percent, couple"))),
            When(IS_HEAD, Const(DollarOf("32 percent, head of household"))),
            When(IS_SEPARATE, Const(DollarOf("32 percent, separately"))),
            When(OTHERWISE, Const(DollarOf("32 percent, single"))),
        ]),
    ),
    Derived(
        "/end35",
        Kind::Dollar,
        Switch(&[
            When(IS_COUPLE, Const(DollarOf("35 percent, couple"))),
            When(IS_HEAD, Const(DollarOf("35 percent, head of household"))),
            When(IS_SEPARATE, Const(DollarOf("35 percent, separately"))),
            When(OTHERWISE, Const(DollarOf("35 percent, single"))),
        ]),
    ),
];

/// The tax of each band, and of all.
pub const TAXES: &'static [WrittenFact<'static>] = &[
    Derived(
        "/tax10",
        Kind::Dollar,
        Two(
            Multiply,
            &Many(LesserOf, &[TAXABLE_INCOME, END_10]),
            &RATE_10,
        ),
    ),
    Derived(
        "/tax12",
        Kind::Dollar,
        Two(
            Multiply,
            &Many(
                GreaterOf,
                &[
                    ZERO_DOLLARS,
                    Many(
                        Subtract,
                        &[Many(LesserOf, &[TAXABLE_INCOME, END_12]), END_10],
                    ),
                ],
            ),
            &RATE_12,
        ),
    ),
    Derived(
        "/tax22",
        Kind::Dollar,
        Two(
            Multiply,
            &Many(
                GreaterOf,
                &[
                    ZERO_DOLLARS,
                    Many(
                        Subtract,
                        &[Many(LesserOf, &[TAXABLE_INCOME, END_22]), END_12],
                    ),
                ],
            ),
            &RATE_22,
        ),
    ),
    Derived(
        "/tax24",
        Kind::Dollar,
        Two(
            Multiply,
            &Many(
                GreaterOf,
                &[
                    ZERO_DOLLARS,
                    Many(
                        Subtract,
                        &[Many(LesserOf, &[TAXABLE_INCOME, END_24]), END_22],
                    ),
                ],
            ),
            &RATE_24,
        ),
    ),
    Derived(
        "/tax32",
        Kind::Dollar,
        Two(
            Multiply,
            &Many(
                GreaterOf,
                &[
                    ZERO_DOLLARS,
                    Many(
                        Subtract,
                        &[Many(LesserOf, &[TAXABLE_INCOME, END_32]), END_24],
                    ),
                ],
            ),
            &RATE_32,
        ),
    ),
    Derived(
        "/tax35",
        Kind::Dollar,
        Two(
            Multiply,
            &Many(
                GreaterOf,
                &[
                    ZERO_DOLLARS,
                    Many(
                        Subtract,
                        &[Many(LesserOf, &[TAXABLE_INCOME, END_35]), END_32],
                    ),
                ],
            ),
            &RATE_35,
        ),
    ),
    Derived(
        "/tax37",
        Kind::Dollar,
        Two(
            Multiply,
            &Many(
                GreaterOf,
                &[ZERO_DOLLARS, Many(Subtract, &[TAXABLE_INCOME, END_35])],
            ),
            &RATE_37,
        ),
    ),
    Derived(
        "/scheduleTax",
        Kind::Dollar,
        Many(
            Add,
            &[TAX_10, TAX_12, TAX_22, TAX_24, TAX_32, TAX_35, TAX_37],
        ),
    ),
];

/// For whom there is a credit.
pub const CHILDREN: &'static [WrittenFact<'static>] = &[
    Question(
        "/dependents/*/hasNumber",
        Kind::Boolean,
        "Do they have the social security number that the child tax credit asks for?",
    ),
    Derived(
        "/dependents/*/creditChild",
        Kind::Boolean,
        Many(
            All,
            &[
                THEIR_QUALIFYING_CHILD,
                Two(GreaterThan, &THEIR_DATE_OF_BIRTH, &UNDER_17_AFTER),
                THEIR_HAS_NUMBER,
            ],
        ),
    ),
    Derived(
        "/dependents/*/otherDependent",
        Kind::Boolean,
        Many(All, &[THEY_DEPEND, One(Not, &THEIR_CREDIT_CHILD)]),
    ),
];

// The credit as far as it isn't reduced away.
const REDUCED: Form<'static> = Many(
    GreaterOf,
    &[ZERO_DOLLARS, Many(Subtract, &[CREDIT_BASE, REDUCTION])],
);

/// The credit, and what is left of the tax.
pub const CREDIT: &'static [WrittenFact<'static>] = &[
    Derived(
        "/creditChildCount",
        Kind::Int,
        Read(Count, "/dependents/*/creditChild"),
    ),
    Derived(
        "/otherDependentCount",
        Kind::Int,
        Read(Count, "/dependents/*/otherDependent"),
    ),
    Derived(
        "/creditBase",
        Kind::Dollar,
        Many(
            Add,
            &[
                Two(Multiply, &FOR_A_CHILD, &CREDIT_CHILD_COUNT),
                Two(Multiply, &FOR_ANOTHER, &OTHER_DEPENDENT_COUNT),
            ],
        ),
    ),
    Derived(
        "/excess",
        Kind::Dollar,
        Many(
            GreaterOf,
            &[
                ZERO_DOLLARS,
                Many(
                    Subtract,
                    &[
                        TOTAL_INCOME,
                        Switch(&[When(IS_JOINT, LIMIT_JOINTLY), When(OTHERWISE, LIMIT_OTHERS)]),
                    ],
                ),
            ],
        ),
    ),
    Derived(
        "/reduction",
        Kind::Dollar,
        Two(
            Multiply,
            &One(
                Round,
                &Two(Divide, &Many(Add, &[EXCESS, BELOW_HALF]), &THOUSAND),
            ),
            &FOR_A_THOUSAND,
        ),
    ),
    Derived(
        "/childCredit",
        Kind::Dollar,
        Many(LesserOf, &[SCHEDULE_TAX, REDUCED]),
    ),
    Derived(
        "/taxAfterCredits",
        Kind::Dollar,
        Many(Subtract, &[SCHEDULE_TAX, CHILD_CREDIT]),
    ),
];
