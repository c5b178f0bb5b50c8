// The declared type.
#[derive(Clone, Copy)]
pub struct Pair<F, G> {
    pub first: F,
    pub second: G,
}
