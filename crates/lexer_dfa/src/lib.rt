// The face of Vohitsamba: the calls that a user makes and the types that they answer with, and nothing else.
// What the calls promise together, the demands, the ply sheet's examples and uniqueness, stands in specs/ and proofs/.
#![tactic(auto)]

pub use list_distinct::distinct_masks;
pub use list_masks::{Masks, segment_mask_matrix};
pub use list_segments::char_segments;
pub use list_transitions::{Transitions, read_intervals, read_transitions};
pub use look_accepts::{AcceptRecord, accept, accept_actions_span, accept_record};
pub use look_continuation_records::{
    ContinuationRecord, continuation_configs_span, continuation_contexts_span, continuation_record,
};
pub use look_continuations::{char_continuation, eof_continuation};
pub use look_mode_lists::{compiled_mode_flags, mode_state_counts};
pub use look_modes::{has_compiled_modes, mode_start, state_count};
pub use look_parts::{accept_actions, continuation_configs, continuation_contexts};
pub use look_row::{WideRange, wide_target};
pub use look_runs::ascii_run;
pub use look_scan::{scan_ascii_run, scan_ascii_run_length};
pub use look_targets::{ascii_target, char_target, eof_target};
pub use pool_ascii::intern_ascii;
pub use pool_wide::intern_wide;
pub use refusal::Refusal;
pub use room_coverage::coverage;
pub use room_decode::{Decoded, decode};
pub use room_encode::encode;
pub use room_find::{Missing, Span};
pub use row_build::{Rows, build_rows};
pub use run_class::{AsciiRangeClass, ByteClass, class, class_of_byte};
pub use run_classify::classify;
pub use run_ranges::{AsciiRange, AsciiRanges, PackedRanges};
pub use run_scan::{scan, scan_length};
pub use run_shape::{AsciiRun, AsciiRunScan, RunWords, serialized_words};
pub use run_words::{read_alone, read_serialized, write_serialized};
pub use word_serialized::{SerializedReader, read_opening};
