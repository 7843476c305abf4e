// Making a site: the number is in range, and the store and the log are fresh.
use crate::pairs::{Before, Making, made_on_both};
use site::refusals::Refusal;
use std::test::Fail;

#[test]
fn number_is_below_the_size_of_the_group(rt: HostRuntime) -> Result<(), Fail> {
    for (number, refusal) in [(0, None), (1, None), (2, Some(Refusal::NotFresh))] {
        let before = Before::Nothing;
        let making = Making {
            number,
            before,
            refusal,
        };
        made_on_both(&rt, making, 2, 2, &[])?;
    }
    Ok(())
}

#[test]
fn store_and_log_are_fresh(rt: HostRuntime) -> Result<(), Fail> {
    for before in [
        Before::Staged,
        Before::Sealed,
        Before::Ticketed,
        Before::Passed,
        Before::Copied,
        Before::Known,
    ] {
        let making = Making {
            number: 0,
            before,
            refusal: Some(Refusal::NotFresh),
        };
        made_on_both(&rt, making, 2, 2, &[])?;
    }
    Ok(())
}
