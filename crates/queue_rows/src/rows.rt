//! The rows of all tables.
ghost use Rattle.std.specs.Prelude.{◌≡◌, [], None};
ghost use Rattle.queue_rows.specs.Rows.{tables_in};

use queue_types::document::Format;
use queue_types::event::{GrantRow, KeptReport};
use queue_types::job::Job;
use queue_types::text::Text;
use std::alloc::Global;

/// The number of the schema of a new store's tables.
pub const SCHEMA: u32 = 3;

/// The number of the schema without the table `operators`, whose stores are still read.
pub const SECOND_SCHEMA: u32 = 2;

/// The number of the schema without the table `policy`, whose stores are still read.
pub const FIRST_SCHEMA: u32 = 1;

/// The one row of the table `meta`.
#[derive(Debug, Drop)]
pub struct MetaRow {
    /// The key, always 1.
    pub one: u32,
    /// The number of the schema, [`SCHEMA`], or [`SECOND_SCHEMA`] where there is no table `operators`, or [`FIRST_SCHEMA`] where there is no table
    /// `policy` either.
    pub schema: u32,
    /// The printer's URI, as are the next three a value of its settings.
    pub uri: Text,
    pub name: Text,
    pub estimate: u32,
    pub epoch: i64,
    /// The number that the next new job gets, 1 to 2,147,483,648.
    pub next_number: u32,
}

/// A document without its bytes. Its key is job and `doc`.
#[derive(Clone, Copy, Debug)]
pub struct DocumentRow {
    pub job: u32,
    /// Its number among the documents of the job, from 1 on.
    pub doc: u32,
    pub format: Format,
    /// Its length in bytes, 1 to 16,777,216.
    pub octets: u32,
}

/// A piece of a document, of which only the length of its bytes is kept. Its key is job, `doc` and `piece`.
#[derive(Clone, Copy, Debug)]
pub struct PieceRow {
    pub job: u32,
    pub doc: u32,
    /// Its number among the pieces of the document, from 0 on.
    pub piece: u32,
    /// 65,536, and of the last piece 1 to 65,536.
    pub length: u32,
}

/// An account, in pages. Its key is the name.
#[derive(Debug, Drop)]
pub struct AccountRow {
    pub name: Text,
    /// Below zero by pages printed past what was reserved.
    pub free: i64,
    /// The pages that are set aside for the account's jobs.
    pub reserved: u64,
    /// The pages that the account's jobs have printed.
    pub printed: u64,
}

/// The one row of the table `policy`.
#[derive(Clone, Copy, Debug)]
pub struct PolicyRow {
    /// The key, always 1.
    pub one: u32,
    /// The seconds for which a job may be held; 0 where there is no end to it.
    pub keep: u32,
}

/// The rows of all tables, each table in the order of its key.
#[derive(Debug, Drop)]
pub struct Rows {
    pub meta: Vec<MetaRow>,
    /// A job's row says nothing of its documents: their number and octets are 0 here.
    pub jobs: Vec<Job>,
    pub documents: Vec<DocumentRow>,
    pub pieces: Vec<PieceRow>,
    pub accounts: Vec<AccountRow>,
    pub grants: Vec<GrantRow>,
    pub reports: Vec<KeptReport>,
    /// None where there is no such table.
    pub policy: Option<Vec<PolicyRow>>,
    /// The names of the operators; None where there is no such table.
    pub operators: Option<Vec<Text>>,
}

impl Rows {
    /// Tables without rows.
    pub fn new(alloc: Global) -> Self
        ensures { tables_in result ≡ record { meta = []; jobs = []; documents = []; pieces = []; accounts = []; grants = []; reports = []; policy = None; operators = None } }
    {
        Rows {
            meta: Vec::new(alloc),
            jobs: Vec::new(alloc),
            documents: Vec::new(alloc),
            pieces: Vec::new(alloc),
            accounts: Vec::new(alloc),
            grants: Vec::new(alloc),
            reports: Vec::new(alloc),
            policy: None,
            operators: None,
        }
    }
}
