//! Laws of raw columns and of plans.

ghost use Rattle.std.specs.Prelude.{◌≡◌, ◌↔◌, Bool, false, None, List, [], ◌∷◌, ◌++◌, length};
ghost use Rattle.std.specs.List.{range_with_len};
ghost use Rattle.column_base.specs.Kinds.{Slot};
ghost use Rattle.column_binary.specs.Slots.{offset_slots};
ghost use Rattle.column_binview.specs.Slots.{ViewLists};
ghost use Rattle.column_deduped.specs.Deduped.{named};
ghost use Rattle.column_relayout.specs.declared.steps.Step.{Step};
ghost use Rattle.column_relayout.specs.declared.steps.Step.TheVariants.{Dedupe};
ghost use Rattle.column_relayout.specs.Kinds.{offset_kind};
ghost use Rattle.column_relayout.specs.Columns.{RawLists, offset_column, view_column, column_kind, slots_of, parts_fault, IsWithinType, IsWellFormed, shared_bytes};
ghost use Rattle.column_relayout.specs.Plans.{leads, plan_meaning, is_light, IsLight, light_lists};
ghost use Rattle.column_relayout.specs.Steps.{StepsTo, Relays};
ghost use Rattle.column_relayout.specs.Written.{written_lists};
ghost use Rattle.column_relayout.specs.Cuts.{cut_once, as_read};

/// Law of well-formedness: over lists within their type no fault is found exactly where they are well formed.
#[tactic(auto, using(crate::proofs::ColumnsLemmas::no_fault_is_well_formed))]
pub fn no_fault_is_well_formed()
    ensures { (column : RawLists) → IsWithinType column → (parts_fault column ≡ None) ↔ IsWellFormed column }
{}

/// The column has the kind and the slots that the plan means.
#[tactic(auto, using(crate::proofs::PlansLemmas::relays_lead))]
pub fn relays_lead()
    ensures { (parts column : RawLists) (plan : List Step) → Relays parts plan column
        → plan_meaning parts plan ≡ leads (column_kind column) (slots_of column) }
{}

/// A light plan leaves the lists, cut.
#[tactic(auto, using(crate::proofs::PlansLemmas::light_relays))]
pub fn light_plans_cut()
    ensures { (parts column : RawLists) (plan : List Step) → Relays parts plan column → IsLight plan
        → column ≡ light_lists parts plan }
{}

/// A light plan cuts once: it leaves the part of the lists at one span of their slots, but for flags that are all set,
/// which may stand or not. Read with the flag of each slot, lists have the same slots.
#[tactic(auto, using(crate::proofs::CutsLemmas::light_cut, crate::proofs::ColumnsLemmas::as_read_slots))]
pub fn light_plans_cut_once()
    ensures cut { (parts column : RawLists) (plan : List Step) → parts_fault parts ≡ None → Relays parts plan column → IsLight plan
        → as_read column ≡ as_read (cut_once parts plan) }
    ensures slots { (column : RawLists) → slots_of (as_read column) ≡ slots_of column }
{}

/// A light plan keeps the bytes that slots share whole: the value bytes of a column with offsets, the buffers of one
/// with views. Slots of one length share none. So do the light steps after a step, of the lists that it left.
#[tactic(auto, using(crate::proofs::PlansLemmas::light_keeps, crate::proofs::PlansLemmas::shared_steps))]
pub fn light_plans_keep_bytes()
    ensures plan { (parts column : RawLists) (plan : List Step) → Relays parts plan column → IsLight plan
        → shared_bytes column ≡ shared_bytes parts }
    ensures lists { (column : RawLists) (plan : List Step) → shared_bytes (light_lists column plan) ≡ shared_bytes column }
{}

/// What the last step promises, it promises of some column before it.
#[tactic(auto, using(crate::proofs::PlansLemmas::last_step))]
pub fn last_step_is_taken()
    ensures { (parts column : RawLists) (plan : List Step) (step : Step) → Relays parts (plan ++ step ∷ []) column
        → (old : RawLists) × Relays parts plan old × StepsTo old step column }
{}

/// What a last step promises after light ones, it promises of the parts' lists, cut.
#[tactic(auto, using(crate::proofs::PlansLemmas::last_after_light))]
pub fn last_step_after_light_ones()
    ensures { (parts column : RawLists) (light : List Step) (step : Step) → Relays parts (light ++ step ∷ []) column → IsLight light
        → StepsTo (light_lists parts light) step column }
{}

/// The light steps after a step cut what it left.
#[tactic(auto, using(crate::proofs::PlansLemmas::cut_after_step))]
pub fn light_steps_cut_what_a_step_left()
    ensures { (parts column : RawLists) (plan light : List Step) (step : Step) → Relays parts (plan ++ step ∷ light) column → IsLight light
        → (old : RawLists) × ((middle : RawLists) × Relays parts plan old × StepsTo old step middle × (column ≡ light_lists middle light)) }
{}

/// Where the last heavy step leads to a kind with offsets, its slots were written anew, and the light steps after it
/// cut those lists. Without such steps the column is what was written.
#[tactic(auto, using(crate::proofs::PlansLemmas::written_cut))]
pub fn light_steps_cut_what_was_written()
    ensures { (parts column : RawLists) (plan light : List Step) (step : Step) (large text : Bool) (slots : List Slot)
        → Relays parts (plan ++ step ∷ light) column → is_light step ≡ false → IsLight light
        → plan_meaning parts (plan ++ step ∷ []) ≡ leads (offset_kind large text) slots
        → column ≡ light_lists (offset_column large text (written_lists slots)) light }
{}

/// After a plan that ends with a deduplication the indexes that long views hold are, each once and in the order of first
/// naming, the numbers from 0 up to, not with, the number of buffers.
#[tactic(auto, using(crate::proofs::PlansLemmas::last_dedupe))]
pub fn last_dedupe_names_all_buffers()
    ensures { (parts : RawLists) (plan : List Step) (text : Bool) (lists : ViewLists) → IsWellFormed parts
        → Relays parts (plan ++ Dedupe ∷ []) (view_column text lists)
        → named lists.views ≡ range_with_len 0 (length lists.buffers) }
{}

/// What slots are written to means these slots.
#[tactic(auto, using(crate::proofs::WrittenLemmas::written_mean))]
pub fn written_slots_are_same()
    ensures { (slots : List Slot) → offset_slots (written_lists slots) ≡ slots }
{}
