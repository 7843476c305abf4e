use crate::of_line;

#[test]
fn a_line_gives_its_value_or_an_error(rt: HostRuntime) {
    let given: Result<u32, &str> = Ok(7);
    assert!(rt; of_line(&rt, 1, given).is_ok_and(|value| value == 7));
    let missing: Result<u32, &str> = Err("there is no value");
    assert!(rt; of_line(&rt, 2, missing).is_err());
}
