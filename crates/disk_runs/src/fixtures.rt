// How what was found is compared.
use std::fmt::Debug;
use std::process::Abort;

/// What was found is what is wanted.
pub(crate) fn expect_same<T: PartialEq + Debug + Drop>(
    rt: &impl Abort,
    case: &str,
    found: T,
    want: T,
) {
    assert_eq!(rt; found, want, "{case}");
}
