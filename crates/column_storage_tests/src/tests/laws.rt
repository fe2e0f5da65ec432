use column_storage::{
    flags_of_part, frozen_slots_are_same, no_fault_is_as_many, nulls_of_slots, rows_of_slots,
    same_flags_same_slots, slot_is_added, slot_is_flag_and_value, slot_of_slice,
    slots_are_cut_back, slots_are_joined, slots_are_values, slots_of_slice, slots_of_split,
    slots_of_two_slices,
};

#[test]
fn the_laws_of_slots_are_there() {
    no_fault_is_as_many();
    slots_are_values();
    slot_is_flag_and_value();
    same_flags_same_slots();
    rows_of_slots();
    nulls_of_slots();
}

#[test]
fn the_laws_of_parts_are_there() {
    flags_of_part();
    slots_of_slice();
    slot_of_slice();
    slots_of_two_slices();
    slots_of_split();
}

#[test]
fn the_laws_of_growing_slots_are_there() {
    slot_is_added();
    slots_are_cut_back();
    slots_are_joined();
    frozen_slots_are_same();
}
