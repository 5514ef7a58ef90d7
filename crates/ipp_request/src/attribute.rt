//! The attributes that requests have, as two tables: a row for each (RFC 8011, sections 4, 5.2 and 5.3.17.2).
ghost use Rattle.std.specs.Prelude.{◌≡◌, map, true};
ghost use Rattle.ipp_request.specs.Attributes.{is_one_of, job_group_name, job_group_support, knows, limit_of, needs, one, row, row_of, support_of, tags_of};

use ipp_reply::{OPERATIONS, Operation};
use ipp_wire::tags::{
    BOOLEAN, CHARSET, INTEGER, KEYWORD, MIME_MEDIA_TYPE, NAME_WITH_LANGUAGE, NAME_WITHOUT_LANGUAGE,
    NATURAL_LANGUAGE, URI,
};
use queue_types::limits::{MOST_COPIES, MOST_IMPRESSIONS, MOST_NAME_OCTETS};

/// The most octets of a uri (RFC 8011, section 5.1.6).
const MOST_URI_OCTETS: usize = 1023;

/// The most octets of a naturalLanguage (RFC 8011, section 5.1.9).
const MOST_LANGUAGE_OCTETS: usize = 63;

/// The most octets of a keyword (RFC 8011, section 5.1.4).
const MOST_KEYWORD_OCTETS: usize = 255;

/// The most octets of a mimeMediaType (RFC 8011, section 5.1.10).
const MOST_MEDIA_TYPE_OCTETS: usize = 255;

/// The operation attributes that are looked at.
#[derive(Clone, Copy, Debug)]
pub enum OperationAttribute {
    AttributesCharset,
    AttributesNaturalLanguage,
    PrinterUri,
    JobUri,
    JobId,
    RequestingUserName,
    JobName,
    DocumentName,
    IppAttributeFidelity,
    Compression,
    DocumentFormat,
    JobImpressions,
    RequestedAttributes,
    WhichJobs,
    Limit,
    MyJobs,
    LastDocument,
    JobIds,
    JobHoldUntil,
}

/// The syntax of an attribute's values (RFC 8011, section 5.1).
#[derive(Clone, Copy, Debug)]
pub enum Syntax {
    Charset,
    NaturalLanguage,
    Uri,
    MediaType,
    Keyword,
    KeywordOrName,
    /// A number of 4 bytes.
    Integer,
    /// A number of 4 bytes, at least 1.
    Positive,
    /// One byte, 0 or 1.
    Boolean,
    /// A name in UTF-8 without control characters.
    UserName,
    /// A name in UTF-8 without a zero byte.
    Title,
}

/// Which values are supported.
#[derive(Clone, Copy, Debug)]
pub enum Support {
    Anything,
    /// One integer from the first to the second.
    Between(u32, u32),
    /// One of these keywords.
    Words(&'static [&'static str]),
}

/// What a row of the table says of an attribute.
#[derive(Clone, Copy, Debug)]
pub struct Row {
    pub name: &'static str,
    pub syntax: Syntax,
    /// Whether there may be several values.
    pub many: bool,
    pub support: Support,
    pub known_in: &'static [Operation],
}

/// The operation attributes.
pub const OPERATION_ATTRIBUTE_TABLE: [OperationAttribute; 19] = [
    OperationAttribute::AttributesCharset,
    OperationAttribute::AttributesNaturalLanguage,
    OperationAttribute::PrinterUri,
    OperationAttribute::JobUri,
    OperationAttribute::JobId,
    OperationAttribute::RequestingUserName,
    OperationAttribute::JobName,
    OperationAttribute::DocumentName,
    OperationAttribute::IppAttributeFidelity,
    OperationAttribute::Compression,
    OperationAttribute::DocumentFormat,
    OperationAttribute::JobImpressions,
    OperationAttribute::RequestedAttributes,
    OperationAttribute::WhichJobs,
    OperationAttribute::Limit,
    OperationAttribute::MyJobs,
    OperationAttribute::LastDocument,
    OperationAttribute::JobIds,
    OperationAttribute::JobHoldUntil,
];

/// The operations on one job.
pub(crate) const OF_JOB: [Operation; 5] = [
    Operation::SendDocument,
    Operation::CancelJob,
    Operation::GetJobAttributes,
    Operation::HoldJob,
    Operation::ReleaseJob,
];

/// The operations that a new job's attributes come with: they look at the job group.
pub(crate) const OF_NEW_JOB: [Operation; 3] = [
    Operation::PrintJob,
    Operation::ValidateJob,
    Operation::CreateJob,
];

/// The operations that a document's attributes come with.
const OF_DOCUMENT: [Operation; 3] = [
    Operation::PrintJob,
    Operation::ValidateJob,
    Operation::SendDocument,
];

/// The operations whose document-format is looked at.
const OF_FORMAT: [Operation; 4] = [
    Operation::PrintJob,
    Operation::ValidateJob,
    Operation::SendDocument,
    Operation::GetPrinterAttributes,
];

/// The operations whose reply has the attributes that are requested.
const OF_SELECTION: [Operation; 3] = [
    Operation::GetJobAttributes,
    Operation::GetJobs,
    Operation::GetPrinterAttributes,
];

/// The supported numbers of impressions.
const IMPRESSIONS: Support = Support::Between(0, MOST_IMPRESSIONS);

/// A job is held with no end.
const HELD: Support = Support::Words(&["indefinite"]);

impl Syntax {
    /// The value tags that may stand (RFC 8010, section 3.5.2).
    pub(crate) fn tags(self) -> &'static [u8]
        ensures { result.now ≡ tags_of self }
    {
        match self {
            Syntax::Charset => &[CHARSET],
            Syntax::NaturalLanguage => &[NATURAL_LANGUAGE],
            Syntax::Uri => &[URI],
            Syntax::MediaType => &[MIME_MEDIA_TYPE],
            Syntax::Keyword => &[KEYWORD],
            Syntax::KeywordOrName => &[KEYWORD, NAME_WITHOUT_LANGUAGE, NAME_WITH_LANGUAGE],
            Syntax::Integer | Syntax::Positive => &[INTEGER],
            Syntax::Boolean => &[BOOLEAN],
            Syntax::UserName | Syntax::Title => &[NAME_WITHOUT_LANGUAGE, NAME_WITH_LANGUAGE],
        }
    }

    /// The greatest number of octets of a value, of a nameWithLanguage that of its name.
    pub(crate) fn limit(self) -> Option<usize>
        ensures { result ≡ limit_of self }
    {
        match self {
            Syntax::Charset | Syntax::Integer | Syntax::Positive | Syntax::Boolean => None,
            Syntax::NaturalLanguage => Some(MOST_LANGUAGE_OCTETS),
            Syntax::Uri => Some(MOST_URI_OCTETS),
            Syntax::MediaType => Some(MOST_MEDIA_TYPE_OCTETS),
            Syntax::Keyword => Some(MOST_KEYWORD_OCTETS),
            Syntax::KeywordOrName | Syntax::UserName | Syntax::Title => Some(MOST_NAME_OCTETS),
        }
    }

    /// The row of an attribute with one value, of which any content is supported.
    fn row(self, name: &'static str, known_in: &'static [Operation]) -> Row
        ensures { row_of result ≡ one name.entry.now self known_in.entry.now }
    {
        Row {
            name,
            syntax: self,
            many: false,
            support: Support::Anything,
            known_in,
        }
    }
}

impl Row {
    /// The row for one value or more.
    fn with_many(self) -> Row
        ensures { row_of result ≡ record (row_of self) { many = true } }
    {
        Row { many: true, ..self }
    }

    /// The row of which these values alone are supported.
    fn supporting(self, support: Support) -> Row
        ensures { row_of result ≡ record (row_of self) { support = support_of support } }
    {
        Row { support, ..self }
    }
}

impl OperationAttribute {
    /// Its row of the table.
    pub fn row(self) -> Row
        ensures { row_of result ≡ row self }
    {
        match self {
            Self::AttributesCharset => Syntax::Charset.row("attributes-charset", &OPERATIONS),
            Self::AttributesNaturalLanguage => Syntax::NaturalLanguage.row(
                "attributes-natural-language",
                &OPERATIONS,
            ),
            Self::PrinterUri => Syntax::Uri.row("printer-uri", &OPERATIONS),
            Self::JobUri => Syntax::Uri.row("job-uri", &OF_JOB),
            Self::JobId => Syntax::Integer.row("job-id", &OF_JOB),
            Self::RequestingUserName => Syntax::UserName.row("requesting-user-name", &OPERATIONS),
            Self::JobName => Syntax::Title.row("job-name", &OF_NEW_JOB),
            Self::DocumentName => Syntax::Title.row("document-name", &OF_DOCUMENT),
            Self::IppAttributeFidelity => Syntax::Boolean.row(
                "ipp-attribute-fidelity",
                &OF_NEW_JOB,
            ),
            Self::Compression => Syntax::Keyword.row("compression", &OF_DOCUMENT),
            Self::DocumentFormat => Syntax::MediaType.row("document-format", &OF_FORMAT),
            Self::JobImpressions => Syntax::Integer
                .row("job-impressions", &OF_NEW_JOB)
                .supporting(IMPRESSIONS),
            Self::RequestedAttributes => Syntax::Keyword
                .row("requested-attributes", &OF_SELECTION)
                .with_many(),
            Self::WhichJobs => Syntax::Keyword
                .row("which-jobs", &[Operation::GetJobs])
                .supporting(Support::Words(&["not-completed", "completed"])),
            Self::Limit => Syntax::Positive.row("limit", &[Operation::GetJobs]),
            Self::MyJobs => Syntax::Boolean.row("my-jobs", &[Operation::GetJobs]),
            Self::LastDocument => Syntax::Boolean.row("last-document", &[Operation::SendDocument]),
            Self::JobIds => Syntax::Integer
                .row("job-ids", &[Operation::CancelMyJobs])
                .with_many(),
            Self::JobHoldUntil => Syntax::KeywordOrName
                .row("job-hold-until", &[Operation::HoldJob])
                .supporting(HELD),
        }
    }
}

/// The operation is one of these.
pub(crate) fn is_one_of(operations: &[Operation], operation: Operation) -> bool
    ensures { result ≡ is_one_of operations.now operation }
{
    operations.contains(&operation)
}

/// The operation knows the attribute.
pub(crate) fn knows(operation: Operation, attribute: OperationAttribute) -> bool
    ensures { result ≡ knows operation attribute }
{
    is_one_of(attribute.row().known_in, operation)
}

/// The attributes that the operation needs: all of one of these lists.
pub fn needs(operation: Operation) -> &'static [&'static [OperationAttribute]]
    ensures { map (λ ks. ks.now) result.now ≡ needs operation }
{
    use OperationAttribute::{JobId, JobUri, LastDocument, PrinterUri};
    match operation {
        Operation::PrintJob
        | Operation::ValidateJob
        | Operation::CreateJob
        | Operation::GetJobs
        | Operation::GetPrinterAttributes
        | Operation::CancelMyJobs => &[&[PrinterUri]],
        Operation::CancelJob
        | Operation::GetJobAttributes
        | Operation::HoldJob
        | Operation::ReleaseJob => &[&[JobUri], &[PrinterUri, JobId]],
        Operation::SendDocument => {
            &[&[JobUri, LastDocument], &[PrinterUri, JobId, LastDocument]]
        }
    }
}

/// The attributes of the job group that are looked at.
#[derive(Clone, Copy, Debug)]
pub enum JobGroupAttribute {
    Copies,
    JobHoldUntil,
    /// Used where the operation group has none, and listed wherever it is not supported.
    JobImpressions,
}

/// The attributes of the job group.
pub(crate) const JOB_GROUP_TABLE: [JobGroupAttribute; 3] = [
    JobGroupAttribute::Copies,
    JobGroupAttribute::JobHoldUntil,
    JobGroupAttribute::JobImpressions,
];

impl JobGroupAttribute {
    /// Its name (RFC 8011, sections 5.2 and 5.3).
    pub fn name(self) -> &'static str
        ensures { result.now ≡ job_group_name self }
    {
        match self {
            JobGroupAttribute::Copies => "copies",
            JobGroupAttribute::JobHoldUntil => "job-hold-until",
            JobGroupAttribute::JobImpressions => "job-impressions",
        }
    }

    /// The values of it that are supported.
    pub fn support(self) -> Support
        ensures { support_of result ≡ job_group_support self }
    {
        match self {
            JobGroupAttribute::Copies => Support::Between(1, MOST_COPIES),
            JobGroupAttribute::JobHoldUntil => HELD,
            JobGroupAttribute::JobImpressions => IMPRESSIONS,
        }
    }
}
