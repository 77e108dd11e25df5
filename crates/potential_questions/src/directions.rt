//! At which start values bounds are judged.

use crate::error::{SearchError, product};
use crate::sparse::SparseForm;
use crate::system::{PreparedRule, System};
use poly_terms::Memory;
use std::alloc::Global;

/// By what the numbers of a direction are multiplied.
const SCALE: i128 = 1_000;

/// How many further lists are tried at which bounds are judged.
const JUDGES: u32 = 60;

/// Lists of small numbers, one for each start argument, and the start values at which bounds are judged: 1,000 times
/// each.
#[derive(Debug, Drop)]
pub struct Directions {
    pub lists: Vec<Vec<i128>>,
    pub points: Vec<Vec<i128>>,
}

impl Directions {
    /// The list with an index alone, or all lists where there is none.
    pub(crate) fn only(&self, index: Option<usize>) -> &[Vec<i128>] {
        match index.and_then(|i| self.lists.get(i..i.saturating_add(1))) {
            Some(list) => list,
            None => self.lists.as_slice(),
        }
    }

    // Appends a list, where some rule can leave the start symbol at 1,000 times it, and says whether it can.
    fn add(
        &mut self,
        alloc: Global,
        system: &System,
        list: Vec<i128>,
    ) -> Result<bool, SearchError> {
        let point = scaled(alloc, &list)?;
        let is_start = can_start(&system.rules, system.start, &point);
        if is_start {
            self.points.push(point)?;
            self.lists.push(list)?;
        }
        Ok(is_start)
    }

    // Appends the list with a number at a place and another one at all others, where a rule can leave the start symbol
    // so, and says whether it can.
    fn add_place(
        &mut self,
        alloc: Global,
        system: &System,
        place: u32,
        numbers: (i128, i128),
    ) -> Result<bool, SearchError> {
        let (others, number) = numbers;
        let mut list = same_list(alloc, system.places_of(system.start), others)?;
        if let Some(entry) = list.get_mut(place as usize) {
            *entry = number;
        }
        self.add(alloc, system, list)
    }
}

/// The directions at which some rule can leave the start symbol: all 1; one place 1 or -1; all 1 and one place 2, or -1
/// and 3 if it can't be -1 alone. All 1 alone where none is such.
///
/// # Errors
///
/// `Range` where a number is beyond 128 bits; `Memory` where an allocation fails.
pub fn directions_of(alloc: Global, system: &System) -> Result<Directions, SearchError> {
    let places = system.places_of(system.start);
    let mut found = Directions {
        lists: Vec::new(alloc),
        points: Vec::new(alloc),
    };
    found.add(alloc, system, same_list(alloc, places, 1)?)?;
    for place in 0..places {
        found.add_place(alloc, system, place, (0, 1))?;
        let can_be_below = found.add_place(alloc, system, place, (0, -1))?;
        found.add_place(alloc, system, place, (1, 2))?;
        if !can_be_below {
            found.add_place(alloc, system, place, (1, -1))?;
            found.add_place(alloc, system, place, (1, 3))?;
        }
    }
    if found.lists.is_empty() {
        let list = same_list(alloc, places, 1)?;
        found.points.push(scaled(alloc, &list)?)?;
        found.lists.push(list)?;
    }
    Ok(found)
}

/// More lists at which bounds are judged: some of the numbers 0, 1, 2, 3, 5 and -1 by a fixed sequence.
///
/// # Errors
///
/// `Range` where a number is beyond 128 bits; `Memory` where an allocation fails.
pub fn judges_of(
    alloc: Global,
    system: &System,
    directions: &Directions,
) -> Result<Directions, SearchError> {
    let places = system.places_of(system.start);
    let mut found = Directions {
        lists: Vec::new(alloc),
        points: Vec::new(alloc),
    };
    for list in &directions.lists {
        found.points.push(scaled(alloc, list)?)?;
        found.lists.push(list.as_slice().to_vec(alloc)?)?;
    }
    let mut state = 1u64;
    for _ in 0..JUDGES {
        let mut list = Vec::new(alloc);
        for _ in 0..places {
            state = state
                .wrapping_mul(6_364_136_223_846_793_005)
                .wrapping_add(1_442_695_040_888_963_407);
            list.push(judged_number(state))?;
        }
        found.add(alloc, system, list)?;
    }
    Ok(found)
}

// One of six numbers.
fn judged_number(state: u64) -> i128 {
    match (state >> 33) % 6 {
        0 => 0,
        1 => 1,
        2 => 2,
        3 => 3,
        4 => 5,
        _ => -1,
    }
}

// A list with one number at all places.
fn same_list(alloc: Global, places: u32, number: i128) -> Result<Vec<i128>, Memory> {
    let mut list = Vec::new(alloc);
    for _ in 0..places {
        list.push(number)?;
    }
    Ok(list)
}

// Whether some rule can leave the start symbol.
fn can_start(rules: &[PreparedRule], start: u32, values: &[i128]) -> bool {
    rules.iter().any(|rule| rule.source == start && can_leave(&rule.rows, rule.left, values))
}

// Whether the rows that read the left variables alone hold; a row whose value is beyond 128 bits counts as one.
fn can_leave(rows: &[SparseForm], left: u32, values: &[i128]) -> bool {
    rows.iter()
        .all(|row| !row.reads_below(left) || can_hold(row, values))
}

// Whether a row's value isn't negative, or beyond 128 bits.
fn can_hold(row: &SparseForm, values: &[i128]) -> bool {
    match row.value_at(values) {
        Ok(value) => value >= 0,
        Err(_) => true,
    }
}

// 1,000 times a list.
fn scaled(alloc: Global, list: &[i128]) -> Result<Vec<i128>, SearchError> {
    let mut values = Vec::new(alloc);
    for value in list {
        values.push(product(*value, SCALE)?)?;
    }
    Ok(values)
}
