//! Laws of the editor, for readers: no program needs them. The functions are empty: their contracts are the laws.
#![tactic(auto)]

mod asking_laws;
mod input_laws;
mod laws;
mod line_laws;
mod pasting_laws;
mod pointing_laws;
mod refusal_laws;
mod replace_laws;
mod run_laws;
mod scroll_laws;
mod selection_laws;
mod view_laws;
mod word_laws;
mod work_laws;

pub use asking_laws::{
    answer_is_a_run, code_puts_in, isolates_raise, letter_isolates, letter_puts_in, letter_wraps,
    prompts_are_shown, questions_change_themselves, tell_shows, tells_what_stands,
    told_numbers_lead_back,
};
pub use input_laws::{
    input_line_is_text, keys_are_letters, line_keys_keep_prompt, only_answers_overwrite,
};
pub use laws::{
    copy_puts_twice, find_back_goes_to_previous, find_goes_to_next, giving_up_goes_back,
    goes_to_both_ends, mark_twice_is_nothing, put_restores_cut, redo_mirrors_undo, top_stays,
    undo_gives_back,
};
pub use line_laws::{
    copied_line_goes_above, line_goes_above, new_line_puts_separator, shift_down_takes_lines,
};
pub use pasting_laws::{
    keys_end_pastes, paste_comes_back, paste_is_typing, pastes_are_alone, pastes_end_by_keys,
};
pub use pointing_laws::{drags_take_both, point_stays, point_takes_units, three_presses_take};
pub use refusal_laws::{
    kinds_tell_causes, opening_has_one_cause, refusable_keys_change_texts,
    unrefused_keys_keep_texts, words_tell_causes, words_tell_messages,
};
pub use replace_laws::{
    enter_replaces, find_passes_over, match_takes_marks, replace_replaces_all, replaced_comes_back,
    same_letters_stay, shown_stands,
};
pub use run_laws::{
    redo_run_mirrors_undo_run, run_keys_are_steps, stored_is_unchanged, unchanged_is_stored,
    word_is_a_run,
};
pub use scroll_laws::{far_keys_show, pages_go_back, wheel_goes_back, wheel_moves_view};
pub use selection_laws::{
    cancel_unmarks, move_takes_selection_off, seeking_takes_selection_off, selection_comes_back,
    selection_gives_way, selection_is_removed,
};
pub use view_laws::{view_keeps_text, view_only_is_told};
pub use word_laws::word_keys_erase;
pub use work_laws::{
    column_is_kept, erase_point_leaves_beginning, find_next_is_find_twice,
    find_previous_is_find_back, kept_moves_go_back, line_moves_go_back, page_moves_go_back,
};
