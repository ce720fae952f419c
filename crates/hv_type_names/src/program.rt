use hv_items::Items;
use hv_symbols::Texts;
use hv_tree::Place;

// What is known of a whole program, and the number of the declaration that is looked at.
#[derive(Drop)]
pub(crate) struct Program<'a> {
    // The names of the structs.
    pub(crate) structs: Texts<'a>,
    // The names of all declarations, and where each stands.
    pub(crate) tops: Texts<'a>,
    pub(crate) places: Items<Place>,
    pub(crate) number: usize,
}
