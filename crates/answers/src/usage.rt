// What is said of wrong usage and of a file that cannot be read.
ghost use Rattle.std.specs.Prelude.{IfOk};
ghost use Rattle.answers.specs.Usage.{usage_said, usage_of_said, file_said};
ghost use Rattle.answers.specs.Said.{Says};

use crate::{Answer, complained};
use std::alloc::{AllocError, Global};

// The answer to wrong usage.
pub fn told_usage(alloc: Global, what: &str) -> Result<Answer, AllocError>
    ensures { IfOk result (Says (usage_said what.now)) }
{
    let text = format!(in alloc; "pearrummy: {what}\nTry: pearrummy --help\n")?;
    Ok(complained(alloc, text.into_bytes(), 64))
}

// The answer to wrong usage of something.
pub fn told_usage_of(alloc: Global, what: &str, which: &str) -> Result<Answer, AllocError>
    ensures { IfOk result (Says (usage_of_said what.now which.now)) }
{
    let text = format!(in alloc; "pearrummy: {what}: {which}\nTry: pearrummy --help\n")?;
    Ok(complained(alloc, text.into_bytes(), 64))
}

// The answer that a file of a name is not read, and why.
pub fn told_file(alloc: Global, name: &str, why: &str) -> Result<Answer, AllocError>
    ensures { IfOk result (Says (file_said name.now why.now)) }
{
    let text = format!(in alloc; "pearrummy: {name}: {why}\n")?;
    Ok(complained(alloc, text.into_bytes(), 64))
}
