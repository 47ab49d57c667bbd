//! Steps of ascents, worked out by hand. Which prices are kept as the best ones a contract says.
use crate::worked::pair;
use price_raise::{Ascent, Pace, Stands};
use price_rules::Triple;
use price_terms::Prices;

/// Groups of least lines: two ships, or one that is named twice.
type Groups = &'static [(u8, u8)];

/// What is asked of an ascent: a step by groups, their sum, a goal, and whether they gave new cuts; or a
/// further ascent.
enum Ask {
    Raise(Groups, i64, u64, bool),
    Widen,
}

/// What is asked, whether there are other prices then, and what is tried: prices of ships, and of their triple.
type Step = (Ask, bool, &'static [u32], Option<u32>);

/// The pace of an ascent, its ships, their first prices and that of their triple, and its steps.
type Walk = (
    Pace,
    &'static [u8],
    &'static [u32],
    Option<u32>,
    &'static [Step],
);

const ONE_STEP: Pace = Pace {
    steps: 1,
    kept: 3,
    patience: 15,
    span: 10,
    spans: 1,
    from_best: 0,
};

const FIRST: (u8, u8) = (0, 0);

const SECOND: (u8, u8) = (1, 1);

const TWO: &[u8] = &[0, 1];

const BY_ONE_STEP: &[Walk] = &[
    // both lack: a gap of 7000 is shared; then there is no step left
    (
        ONE_STEP,
        TWO,
        &[0, 0],
        None,
        &[
            (Ask::Raise(&[], 0, 70, false), true, &[3500, 3500], None),
            (Ask::Raise(&[], 0, 70, false), false, &[3500, 3500], None),
        ],
    ),
    // one lacks, and bears the whole gap
    (
        ONE_STEP,
        TWO,
        &[0, 100],
        None,
        &[(
            Ask::Raise(&[SECOND], 100, 70, false),
            true,
            &[6900, 100],
            None,
        )],
    ),
    // one stands twice, and gets cheaper; no price falls below 0
    (
        ONE_STEP,
        TWO,
        &[3500, 3500],
        None,
        &[(
            Ask::Raise(&[FIRST, SECOND, SECOND], 6900, 70, false),
            true,
            &[3500, 3400],
            None,
        )],
    ),
    (
        ONE_STEP,
        TWO,
        &[0, 20],
        None,
        &[(
            Ask::Raise(&[FIRST, SECOND, SECOND], 0, 70, false),
            true,
            &[0, 0],
            None,
        )],
    ),
    // near the goal a step is reckoned with a gap of 50
    (
        ONE_STEP,
        TWO,
        &[3400, 0],
        None,
        &[(
            Ask::Raise(&[SECOND], 7100, 70, false),
            true,
            &[3450, 0],
            None,
        )],
    ),
    // no price rises above the greatest one
    (
        ONE_STEP,
        TWO,
        &[999_990, 0],
        None,
        &[(
            Ask::Raise(&[SECOND], 0, 100_000, false),
            true,
            &[1_000_000, 0],
            None,
        )],
    ),
    // each stands once: there is no way up, and no step is made
    (
        ONE_STEP,
        TWO,
        &[3500, 3500],
        None,
        &[
            (
                Ask::Raise(&[FIRST, SECOND], 7000, 70, false),
                false,
                &[3500, 3500],
                None,
            ),
            (Ask::Raise(&[], 7000, 70, false), true, &[3525, 3525], None),
        ],
    ),
];

// A step that gains nothing leads back to the best prices, and after each span of two steps the goal has to be in
// sight.
const IMPATIENT: Pace = Pace {
    steps: 9,
    kept: 3,
    patience: 0,
    span: 2,
    spans: 3,
    from_best: 0,
};

const BACK_TO_THE_BEST: &[Walk] = &[(
    IMPATIENT,
    TWO,
    &[0, 0],
    None,
    &[
        (Ask::Raise(&[], 0, 70, false), true, &[3500, 3500], None),
        // from 0 again, by a step of two thirds: the direction is 3 tenths up and once down
        (
            Ask::Raise(&[FIRST, FIRST, SECOND, SECOND], -5, 70, false),
            true,
            &[0, 0],
            None,
        ),
        // two steps gained 2400, and three times as much is more than 4600
        (Ask::Raise(&[], 2400, 70, false), true, &[1940, 1940], None),
        (Ask::Raise(&[], 2450, 70, false), true, &[3167, 3167], None),
        // a step whose lines gave new cuts doesn't count
        (Ask::Raise(&[], 3500, 70, true), true, &[4019, 4019], None),
        // two more gained 1100, and three times as much is less than 3500
        (Ask::Raise(&[], 3500, 70, false), false, &[4019, 4019], None),
    ],
)];

const THREE_STEPS: Pace = Pace {
    steps: 3,
    kept: 0,
    ..ONE_STEP
};

const LAST_FROM_THE_BEST: Pace = Pace {
    from_best: 2,
    ..THREE_STEPS
};

// The second prices that are tried are the best ones. The first ship bears a gap of 70, and then one of 7000.
const FROM_THE_BEST: &[Walk] = &[
    (
        THREE_STEPS,
        TWO,
        &[0, 0],
        None,
        &[
            (Ask::Raise(&[], 0, 70, false), true, &[3500, 3500], None),
            (
                Ask::Raise(&[FIRST, FIRST, SECOND], 6930, 70, false),
                true,
                &[3430, 3500],
                None,
            ),
            (
                Ask::Raise(&[SECOND], 0, 70, false),
                true,
                &[10_430, 3500],
                None,
            ),
        ],
    ),
    (
        LAST_FROM_THE_BEST,
        TWO,
        &[0, 0],
        None,
        &[
            (Ask::Raise(&[], 0, 70, false), true, &[3500, 3500], None),
            (
                Ask::Raise(&[FIRST, FIRST, SECOND], 6930, 70, false),
                true,
                &[3430, 3500],
                None,
            ),
            (
                Ask::Raise(&[SECOND], 0, 70, false),
                true,
                &[10_500, 3500],
                None,
            ),
        ],
    ),
];

const THREE: &[u8] = &[0, 1, 2];

// Each two of three ships together once.
const IN_PAIRS: Groups = &[(0, 1), (0, 2), (1, 2)];

const MOSTLY_KEPT: Pace = Pace {
    kept: 9,
    ..ONE_STEP
};

const WIDENED: &[Walk] = &[
    (
        MOSTLY_KEPT,
        THREE,
        &[1000, 1000, 1000],
        None,
        &[
            (Ask::Widen, false, &[1000, 1000, 1000], None),
            (Ask::Raise(IN_PAIRS, 0, 70, false), true, &[0, 0, 0], None),
            // three groups have two of the three ships, and one may
            (Ask::Widen, true, &[1000, 1000, 1000], Some(1)),
            // a quarter of a step over a gap of 7000: two sevenths of that up, each ship a seventh down
            (
                Ask::Raise(IN_PAIRS, 0, 70, false),
                true,
                &[750, 750, 750],
                Some(501),
            ),
            // there is no other triple
            (Ask::Widen, false, &[750, 750, 750], Some(501)),
        ],
    ),
    // an ascent that begins with a triple leaves its price
    (
        MOSTLY_KEPT,
        THREE,
        &[750, 750, 750],
        Some(501),
        &[(
            Ask::Raise(IN_PAIRS, 0, 70, false),
            true,
            &[0, 0, 0],
            Some(501),
        )],
    ),
];

// These prices of ships, and of the triple of the first three.
fn prices_of(ships: &[u32], triple: Option<u32>) -> Option<Prices> {
    let ships = Prices::new(ships)?;
    let Some(price) = triple else {
        return Some(ships);
    };
    ships.with_triples(&[Triple {
        first: 0,
        second: 1,
        third: 2,
        price,
    }])
}

// The price of the one triple.
fn triple_of(prices: &Prices) -> Option<u32> {
    match prices.triples() {
        [it] => Some(it.price),
        _ => None,
    }
}

fn stands_of(groups: Groups) -> Stands {
    let mut stands = Stands::new();
    for &(one, other) in groups {
        stands.add(&pair(one, other));
    }
    stands
}

fn goes_on(ascent: &mut Ascent, walk: &Walk, ask: &Ask) -> bool {
    match ask {
        Ask::Raise(groups, sum, goal, is_cut) => {
            ascent.raise(walk.1, &stands_of(groups), *sum, *goal, *is_cut)
        }
        Ask::Widen => ascent.widen(walk.0),
    }
}

// Whether all steps are made as they are told.
fn is_walked(walk: &Walk) -> bool {
    let Some(prices) = prices_of(walk.2, walk.3) else {
        return false;
    };
    let mut ascent = Ascent::new(prices, walk.0);
    for (ask, told, tried, triple) in walk.4 {
        let goes_on = goes_on(&mut ascent, walk, ask);
        let now = ascent.tried();
        if goes_on != *told || now.as_slice() != *tried || triple_of(now) != *triple {
            return false;
        }
    }
    true
}

#[test]
fn ships_and_triples_that_lack_get_dearer(rt: HostRuntime) {
    for walks in [BY_ONE_STEP, BACK_TO_THE_BEST, FROM_THE_BEST, WIDENED] {
        for walk in walks {
            assert!(rt; is_walked(walk));
        }
    }
}
