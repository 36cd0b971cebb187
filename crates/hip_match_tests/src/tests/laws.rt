//! A caller states the laws, and the tests at a place.
use super::support::equals;
use hip_match::draw::End;
use hip_match::laws::{
    ended_pieces_are_the_text, ends_match_starts, ends_meet, join_undoes_split,
    join_undoes_split_by_char, just_one_list_is_leftmost, just_one_list_is_rightmost,
    lines_and_runs_lie_in_order, one_char_reverses, ranges_lie_in_order,
    ranges_lie_in_reverse_order, white_space_parts_the_longest_runs,
};
use hip_match::pattern::{DoubleEndedPattern, OneChar};

/// It asserts nothing while it runs, since the laws' functions do nothing: that it is proved shows that a caller can state them.
#[test]
fn proof_that_callers_can_state_the_laws(_rt: HostRuntime) {
    let text = "é,a";
    just_one_list_is_leftmost(&",", text);
    just_one_list_is_rightmost(&',', text);
    one_char_reverses(&&['a', ','], text);
    join_undoes_split(text, ",");
    join_undoes_split_by_char(text, ',');
    ended_pieces_are_the_text(&&['a', ','], text);
    ends_meet(&[(0, 2), (3, 4)], &[End::Back]);
    white_space_parts_the_longest_runs(text);
    ends_match_starts(&"é", text);
    ranges_lie_in_order(&",", 2, text);
    ranges_lie_in_reverse_order(&',', 2, text);
    lines_and_runs_lie_in_order(text);
}

#[test]
fn at_a_place(rt: HostRuntime) {
    let text = "é,a";
    equals(
        &rt,
        &(','.starts_at(text, 2), ','.starts_at(text, 0)),
        &(true, false),
    );
    equals(
        &rt,
        &('é'.ends_at(text, 2), 'é'.ends_at(text, 3)),
        &(true, false),
    );
    let slice = ['a'].as_slice();
    equals(
        &rt,
        &(slice.starts_at(text, 3), slice.ends_at(text, 4)),
        &(true, true),
    );
    let array = &['a', 'é'];
    equals(
        &rt,
        &(array.ends_at(text, 2), array.ends_at(text, 3)),
        &(true, false),
    );
}
