// Why a line is not understood.
use thiserror::Error;

#[derive(Clone, Copy, PartialEq, Eq, Debug, Error)]
pub enum Fault {
    #[error("a line begins with 'group', 'site', 'send' or the number of a site")]
    NoCall,
    #[error("there is no such call")]
    NoVerb,
    #[error("a number from 0 to 4294967295 is missing")]
    NoNumber,
    #[error("a name is missing: a lower-case letter, then letters and digits")]
    NoName,
    #[error("a value of 32 bits or 'gone' is missing")]
    NoValue,
    #[error("a store is 'journal' or 'chains'")]
    NoStore,
    #[error("a log is 'flat' or 'packed'")]
    NoLog,
    #[error("a name or words of eight upper-case hexadecimal digits are missing")]
    NoWords,
    #[error("there is more on the line than the call takes")]
    MoreWords,
}
