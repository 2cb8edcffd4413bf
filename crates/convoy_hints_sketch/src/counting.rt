/// The word for a number of things: the first where it `is_one`, or else the second.
pub fn noun(is_one: bool, one: &'static str, several: &'static str) -> &'static str {
    if is_one { one } else { several }
}
