//! What is due to the words.

ghost use Rattle.std.specs.Prelude.{◌≡◌, IfOk};
ghost use Rattle.dualtest_main.specs.Report.{notice_of, status_of};

use crate::report;
use crate::status::Status;
use crate::stop::Stop;
use spec_model::Memory;
use std::alloc::Global;

/// The status and the report that are due.
#[derive(Debug, Drop)]
pub struct Answer {
    pub status: Status,
    pub report: Vec<u8>,
}

/// What is due where the command ended early.
pub fn stopped(alloc: Global, stop: Stop) -> Result<Answer, Memory>
    ensures { IfOk result (λ due. (due.status ≡ status_of stop) × (due.report.items ≡ notice_of stop)) }
{
    let status = match stop {
        Stop::ReadFault(file) => Status::ReadFault(file),
        Stop::TooLong(file) => Status::FileTooLong(file),
        Stop::Syntax(at) => Status::Syntax(at),
        Stop::Bad(fault, at) => Status::Check(fault, at),
        Stop::Text(file, fault, line) => Status::Text(file, fault, line),
        Stop::Unbuilt(file) => Status::Unbuilt(file),
        Stop::Memory => Status::Memory,
    };
    Ok(Answer {
        status,
        report: report::notice(alloc, stop)?,
    })
}
