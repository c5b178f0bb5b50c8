// A small kind of value beside the enclosures: an entry tells only whether the line surely has a value. It runs through the same
// `run`, with no proof of its own of running a list.
#![tactic(auto)]

pub mod asking;
pub mod kind;

#[cfg(test)]
mod tests {
    use crate::kind::Defined;
    use codelist::kinds::Kind;

    #[test]
    fn operations_of_answers(rt: HostRuntime) {
        assert_eq!(rt; Defined::neg(true), true);
        assert_eq!(rt; Defined::abs(false), false);
        assert_eq!(rt; Defined::add(true, true), true);
        assert_eq!(rt; Defined::sub(true, false), false);
        assert_eq!(rt; Defined::mul(false, true), false);
        assert_eq!(rt; Defined::max(true, false), false);
        assert_eq!(rt; Defined::chi(true, true, false), false);
        assert_eq!(rt; Defined::div(true, true), false);
    }
}
