//! The answer to a line of the device.
ghost use Rattle.std.specs.Prelude.{◌≡◌, ◌≤◌, length};
ghost use Rattle.device_lines.specs.Reports.{fault_line, is_fault_line, told_line, unread_line, untold_line};

use crate::line::LineFault;
use arrayvec::ArrayString;
use itoa::Buffer;
use queue_types::event::ReportRefusal;
use queue_types::states::JobState;
use std::marker::Model;

/// More bytes than the longest answer has.
const CAPACITY: usize = 32;

/// The line that tells a fault of the book.
const FAULT: &str = "refused 6 fault\n";

/// The line that a device is answered. It lies in the value itself, and contracts see its bytes.
#[derive(Drop)]
pub struct ReportAnswer {
    text: ArrayString<CAPACITY>,
}

impl Model for ReportAnswer {
    ghost use Rattle.std.specs.Prelude.{ℕ, List};

    ghost Value = { List ℕ };

    ghost view = { λ a. a.text.bytes };
}

impl ReportAnswer {
    /// The bytes, to be sent as they are. It takes no memory.
    pub fn bytes(&self) -> &[u8]
        ensures { result.now ≡ self.now }
    {
        self.text.as_str().as_bytes()
    }

    /// The answer is `refused 6 fault`, which stands for a fault of the book alone. It takes no memory.
    pub fn is_fault(&self) -> bool
        ensures { result ≡ is_fault_line self.now }
    {
        self.bytes() == FAULT.as_bytes()
    }

    /// The report is accepted, now or before; the job's state and count.
    pub(crate) fn told(job: u32, state: JobState, count: u32) -> ReportAnswer
        ensures { result ≡ told_line job state count }
    {
        let mut text = ArrayString::new();
        text.push_str("ok ");
        text.push_str(Buffer::new().format(job));
        text.push_str(" ");
        text.push_str(Buffer::new().format(state.number()));
        text.push_str(" ");
        text.push_str(Buffer::new().format(count));
        text.push_str("\n");
        ReportAnswer { text }
    }

    /// The line is no report.
    pub(crate) fn unread(fault: LineFault) -> ReportAnswer
        ensures { result ≡ unread_line fault }
    {
        ReportAnswer::line(match fault {
            LineFault::Syntax => "refused 1 syntax\n",
            LineFault::Range => "refused 4 range\n",
        })
    }

    /// The report is not accepted.
    pub(crate) fn untold(refusal: ReportRefusal) -> ReportAnswer
        ensures { result ≡ untold_line refusal }
    {
        ReportAnswer::line(match refusal {
            ReportRefusal::NoJob => "refused 2 no-job\n",
            ReportRefusal::State => "refused 3 state\n",
            ReportRefusal::Conflict => "refused 5 conflict\n",
        })
    }

    /// The book could not take the report.
    pub(crate) fn fault() -> ReportAnswer
        ensures { result ≡ fault_line }
    {
        ReportAnswer::line(FAULT)
    }

    fn line(bytes: &str) -> ReportAnswer
        requires { length bytes.now ≤ 32 }
        ensures { result ≡ bytes.now }
    {
        let mut text = ArrayString::new();
        text.push_str(bytes);
        ReportAnswer { text }
    }
}
