// The calls of a list on a record. The kind is a byte of the list's format (oracle/FORMAT.md), and stands once, beside its call: an enum
// of 56 kinds would be listed, made from the byte and then matched again. One match would be too long for a function, so groups are tried
// one after another; a match on the ranges of the groups would leave in each an arm for kinds that never come there.
// Each group takes the record and the entry, what a call is made on and what it is given: a struct of them would be made once, to be taken
// apart in every arm.
use crate::build::new_gear;
use crate::entry::Entry;
use crate::place::place;
use calls::address::{Address, matches};
use calls::colours::{
    activate_pending_color, automatic_activation, color_value, copy_report_to_temporary,
    dt8_colour_status, dt8_features, gear_features_byte, load_temporaries_from,
    rgbwaf_control_byte, set_gear_features, store_tc_limit, tc_step, xy_step,
};
use calls::memory::{
    advances_dtr0_past, clear_identification_number, implements_bank, memory_location,
    set_bank0_last_offset, set_bank1_location, set_bank1_lock_byte, set_logical_gear_unit,
    write_memory_location,
};
use calls::pairing::{hear, hear_elsewhere, holds};
use calls::power::power_cycle;
use calls::reads::{
    actual_level_answer, failure_bits, is_type, lamp_failure_from_207, lamp_on, status_byte,
    thermal_shut_down,
};
use calls::setters::{set_enabled, set_faults, set_lamp_failure, set_lamp_starting};
use gear::answer::{Answer, Outcome, unchanged};
use gear::condition::Faults;
use gear::record::Gear;
use gear::write::{apply_standard_write, direct_arc_power};
use query::reply::gear_query_reply;

// Kinds 0 to 3.
fn standard(gear: Gear, entry: Entry) -> Outcome {
    match entry.kind() {
        0 => new_gear(gear, entry),
        1 => apply_standard_write(gear, entry.byte(1), entry.byte(2)),
        2 => direct_arc_power(gear, entry.byte(1)),
        _ => gear_query_reply(gear, entry.byte(1)),
    }
}

// Kinds 4 to 10.
fn colours(gear: Gear, entry: Entry) -> Outcome {
    match entry.kind() {
        4 => tc_step(gear, entry.flag(1)),
        5 => xy_step(gear, entry.flag(1), entry.flag(2)),
        6 => store_tc_limit(gear, entry.word(2), entry.byte(1)),
        7 => load_temporaries_from(gear, entry.setting(1)),
        8 => activate_pending_color(gear),
        9 => unchanged(gear, color_value(gear, entry.byte(1))),
        _ => copy_report_to_temporary(gear),
    }
}

// Kinds 11 to 16.
fn features(gear: Gear, entry: Entry) -> Outcome {
    match entry.kind() {
        11 => unchanged(gear, dt8_colour_status(gear)),
        12 => unchanged(gear, dt8_features(gear)),
        13 => unchanged(gear, rgbwaf_control_byte(gear)),
        14 => unchanged(gear, gear_features_byte(gear)),
        15 => unchanged(gear, automatic_activation(gear)),
        _ => set_gear_features(gear, entry.byte(1)),
    }
}

// Kinds 17 to 25.
fn memory(gear: Gear, entry: Entry) -> Outcome {
    let first = entry.byte(1);
    let second = entry.byte(2);
    match entry.kind() {
        17 => unchanged(gear, memory_location(gear, first, second)),
        18 => write_memory_location(gear, first, second, entry.byte(3)),
        19 => unchanged(gear, advances_dtr0_past(gear, first, second)),
        20 => unchanged(gear, implements_bank(gear, first)),
        21 => set_bank1_lock_byte(gear, first),
        22 => set_bank1_location(gear, first, second),
        23 => set_logical_gear_unit(gear, first, second),
        24 => set_bank0_last_offset(gear, first),
        _ => clear_identification_number(gear),
    }
}

// Kinds 26 to 30.
fn bus(gear: Gear, entry: Entry) -> Option<Outcome> {
    Some(match entry.kind() {
        26 => hear(gear, entry.word(1), entry.flag(3)),
        27 => unchanged(gear, holds(gear, entry.word(1))),
        28 => hear_elsewhere(gear),
        29 => unchanged(gear, matches(gear, entry.address(1)?)),
        30 => power_cycle(gear),
        _ => return None,
    })
}

fn faults(entry: Entry) -> Faults {
    Faults {
        drop: entry.word(1),
        forced: entry.byte(3),
        failure: entry.byte(4),
        unstored: entry.flag(5),
        holds: entry.flag(6),
    }
}

// Kinds 31 to 34.
fn setters(gear: Gear, entry: Entry) -> Outcome {
    match entry.kind() {
        31 => set_enabled(gear, entry.flag(1)),
        32 => set_lamp_failure(gear, entry.flag(1)),
        33 => set_lamp_starting(gear, entry.flag(1)),
        _ => set_faults(gear, faults(entry)),
    }
}

// Kinds 35 to 43.
fn reads(gear: Gear, entry: Entry) -> Answer {
    match entry.kind() {
        35 => status_byte(gear),
        36 => lamp_on(gear),
        37 => failure_bits(gear),
        38 => thermal_shut_down(gear),
        39 => lamp_failure_from_207(gear),
        40 => actual_level_answer(gear),
        41 => is_type(gear, 6),
        42 => is_type(gear, 7),
        _ => is_type(gear, 8),
    }
}

// None for an entry that can't stand in a list.
pub fn perform(gear: Gear, entry: Entry) -> Option<Outcome> {
    Some(match entry.kind() {
        0..=3 => standard(gear, entry),
        4..=10 => colours(gear, entry),
        11..=16 => features(gear, entry),
        17..=25 => memory(gear, entry),
        26..=30 => return bus(gear, entry),
        31..=34 => setters(gear, entry),
        35..=43 => unchanged(gear, reads(gear, entry)),
        _ => return place(gear, entry),
    })
}
