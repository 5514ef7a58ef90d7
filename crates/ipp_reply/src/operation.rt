//! The operations that the printer supports (RFC 8011, section 5.4.15; PWG 5100.11).
ghost use Rattle.std.specs.Prelude.{◌≡◌};
ghost use Rattle.ipp_reply.specs.Operations.{id, operation_of};

/// An operation, by its id.
#[derive(Clone, Copy, Debug, PartialEq, Eq)]
pub enum Operation {
    PrintJob = 0x0002,
    ValidateJob = 0x0004,
    CreateJob = 0x0005,
    SendDocument = 0x0006,
    CancelJob = 0x0008,
    GetJobAttributes = 0x0009,
    GetJobs = 0x000A,
    GetPrinterAttributes = 0x000B,
    HoldJob = 0x000C,
    ReleaseJob = 0x000D,
    CancelMyJobs = 0x0039,
}

/// The operations, by id.
pub const OPERATIONS: [Operation; 11] = [
    Operation::PrintJob,
    Operation::ValidateJob,
    Operation::CreateJob,
    Operation::SendDocument,
    Operation::CancelJob,
    Operation::GetJobAttributes,
    Operation::GetJobs,
    Operation::GetPrinterAttributes,
    Operation::HoldJob,
    Operation::ReleaseJob,
    Operation::CancelMyJobs,
];

impl Operation {
    /// The id by which a request's head names it.
    pub fn id(self) -> u16
        ensures { result ≡ id self }
    {
        self as u16
    }

    /// The operation of an id, where it is supported.
    pub fn from_id(id: u16) -> Option<Operation>
        ensures { result ≡ operation_of id }
    {
        OPERATIONS.iter().copied().find(|o| o.id() == id)
    }
}
