// Level arithmetic: rings on the codes 0 to s − 1, made of residues or of polynomials. Rests on the refusal table.
#![tactic(auto)]

pub mod arithmetic;
pub mod binary;
pub mod choice;
pub mod clock;
pub mod fault;
pub mod listed;

#[cfg(test)]
mod tests {
    use crate::arithmetic::{Dividing, Ring};
    use crate::binary::Binary;
    use crate::choice::AnyRing;
    use refusal::Fault;
    use std::test::Fail;

    #[test]
    fn polynomials(rt: HostRuntime) -> Result<(), Fail> {
        let four = Binary::new(4)?;
        assert_eq!(rt; four.product(2, 2), 3);
        assert_eq!(rt; four.inverse(2), 3);
        assert_eq!(rt; Binary::new(8)?.product(4, 4), 6);
        assert_eq!(rt; Binary::new(16)?.product(8, 2), 3);
        Ok(())
    }

    #[test]
    fn numbers_not_below_the_count(rt: HostRuntime) -> Result<(), Fail> {
        let six = AnyRing::of(6)?;
        assert_eq!(rt; six.sum(4294967295, 4294967295), 0);
        assert_eq!(rt; six.difference(7, 11), 2);
        let seven = AnyRing::of(7)?;
        assert_eq!(rt; seven.product(10, 100), 6);
        Ok(())
    }

    #[test]
    fn refused(rt: HostRuntime) {
        let number = AnyRing::of(17).err().map(|fault| fault.slip().number);
        assert_eq!(rt; number, Some(1));
    }
}
