//! The printer attributes of a reply, as a table in order (RFC 8011, section 5.4).
ghost use Rattle.std.specs.Prelude.{◌≡◌, ◌++◌, ◌∷◌, [], IfOk, OnOk};
ghost use Rattle.ipp_wire.specs.Viewed.{values_of};
ghost use Rattle.queue_types.specs.Settings.{AreSettings};
ghost use Rattle.ipp_reply.specs.Content.{values_in};
ghost use Rattle.ipp_reply.specs.PrinterReply as spec;
ghost use Rattle.ipp_reply.specs.PrinterView.{printer_of};
ghost use Rattle.ipp_reply.specs.Wanted.{of_printer, rows_of, words_of};

use crate::content::{Content, ENGLISH, UTF_8, put};
use crate::selection::{Selectable, selected_rows};
use crate::wanted::Wanted;
use ipp_wire::tags::{
    CHARSET, KEYWORD, MIME_MEDIA_TYPE, NAME_WITHOUT_LANGUAGE, NATURAL_LANGUAGE, PRINTER_ATTRIBUTES,
    URI,
};
use ipp_wire::{Message, ValueView, plain_attribute};
use queue_types::document::Format;
use queue_types::settings::Settings;
use queue_types::states::PrinterState;
use std::alloc::{AllocError, Global};

/// A printer attribute of a reply.
#[derive(Clone, Copy, Debug)]
pub enum PrinterAttribute {
    PrinterUriSupported,
    UriAuthenticationSupported,
    UriSecuritySupported,
    PrinterName,
    PrinterState,
    PrinterStateReasons,
    IppVersionsSupported,
    OperationsSupported,
    CharsetConfigured,
    CharsetSupported,
    NaturalLanguageConfigured,
    GeneratedNaturalLanguageSupported,
    DocumentFormatDefault,
    DocumentFormatSupported,
    PrinterIsAcceptingJobs,
    QueuedJobCount,
    PdlOverrideSupported,
    PrinterUpTime,
    CompressionSupported,
}

/// The rows of the table of printer attributes, in order.
pub const PRINTER_TABLE: [PrinterAttribute; 19] = [
    PrinterAttribute::PrinterUriSupported,
    PrinterAttribute::UriAuthenticationSupported,
    PrinterAttribute::UriSecuritySupported,
    PrinterAttribute::PrinterName,
    PrinterAttribute::PrinterState,
    PrinterAttribute::PrinterStateReasons,
    PrinterAttribute::IppVersionsSupported,
    PrinterAttribute::OperationsSupported,
    PrinterAttribute::CharsetConfigured,
    PrinterAttribute::CharsetSupported,
    PrinterAttribute::NaturalLanguageConfigured,
    PrinterAttribute::GeneratedNaturalLanguageSupported,
    PrinterAttribute::DocumentFormatDefault,
    PrinterAttribute::DocumentFormatSupported,
    PrinterAttribute::PrinterIsAcceptingJobs,
    PrinterAttribute::QueuedJobCount,
    PrinterAttribute::PdlOverrideSupported,
    PrinterAttribute::PrinterUpTime,
    PrinterAttribute::CompressionSupported,
];

/// What a printer is: its settings, and its queue at a moment.
#[derive(Clone, Copy)]
pub(crate) struct PrinterView<'a> {
    pub settings: &'a Settings,
    pub now: u32,
    pub state: PrinterState,
    pub queued: u32,
    pub accepting: bool,
}

impl PrinterAttribute {
    /// The attribute's name.
    pub fn name(self) -> &'static str
        ensures { result.now ≡ spec.name_of self }
    {
        match self {
            PrinterAttribute::PrinterUriSupported => "printer-uri-supported",
            PrinterAttribute::UriAuthenticationSupported => "uri-authentication-supported",
            PrinterAttribute::UriSecuritySupported => "uri-security-supported",
            PrinterAttribute::PrinterName => "printer-name",
            PrinterAttribute::PrinterState => "printer-state",
            PrinterAttribute::PrinterStateReasons => "printer-state-reasons",
            PrinterAttribute::IppVersionsSupported => "ipp-versions-supported",
            PrinterAttribute::OperationsSupported => "operations-supported",
            PrinterAttribute::CharsetConfigured => "charset-configured",
            PrinterAttribute::CharsetSupported => "charset-supported",
            PrinterAttribute::NaturalLanguageConfigured => "natural-language-configured",
            PrinterAttribute::GeneratedNaturalLanguageSupported => {
                "generated-natural-language-supported"
            }
            PrinterAttribute::DocumentFormatDefault => "document-format-default",
            PrinterAttribute::DocumentFormatSupported => "document-format-supported",
            PrinterAttribute::PrinterIsAcceptingJobs => "printer-is-accepting-jobs",
            PrinterAttribute::QueuedJobCount => "queued-job-count",
            PrinterAttribute::PdlOverrideSupported => "pdl-override-supported",
            PrinterAttribute::PrinterUpTime => "printer-up-time",
            PrinterAttribute::CompressionSupported => "compression-supported",
        }
    }

    /// What the row says of a printer.
    fn content<'a>(self, printer: PrinterView<'a>) -> Content<'a>
        ensures { values_in result ≡ spec.values_of (printer_of printer.entry) self }
    {
        match self {
            PrinterAttribute::PrinterUriSupported => Content::Text(URI, printer.settings.uri()),
            PrinterAttribute::UriAuthenticationSupported => {
                Content::Text(KEYWORD, "requesting-user-name")
            }
            PrinterAttribute::UriSecuritySupported => Content::Text(KEYWORD, "none"),
            PrinterAttribute::PrinterName => Content::Text(
                NAME_WITHOUT_LANGUAGE,
                printer.settings.name(),
            ),
            PrinterAttribute::PrinterState => Content::Enum(u32::from(printer.state.number())),
            PrinterAttribute::PrinterStateReasons => Content::Text(KEYWORD, "none"),
            PrinterAttribute::IppVersionsSupported => Content::Texts(KEYWORD, &["1.1", "2.0"]),
            PrinterAttribute::OperationsSupported => Content::OperationIds,
            PrinterAttribute::CharsetConfigured | PrinterAttribute::CharsetSupported => {
                Content::Text(CHARSET, UTF_8)
            }
            PrinterAttribute::NaturalLanguageConfigured
            | PrinterAttribute::GeneratedNaturalLanguageSupported => Content::Text(
                NATURAL_LANGUAGE,
                ENGLISH,
            ),
            PrinterAttribute::DocumentFormatDefault => {
                Content::Text(MIME_MEDIA_TYPE, Format::OctetStream.name())
            }
            PrinterAttribute::DocumentFormatSupported => Content::FormatNames,
            PrinterAttribute::PrinterIsAcceptingJobs => Content::Boolean(printer.accepting),
            PrinterAttribute::QueuedJobCount => Content::Integer(printer.queued),
            PrinterAttribute::PdlOverrideSupported => Content::Text(KEYWORD, "not-attempted"),
            PrinterAttribute::PrinterUpTime => Content::Integer(printer.now),
            PrinterAttribute::CompressionSupported => Content::Text(KEYWORD, "none"),
        }
    }
}

/// Adds the group of a printer with these rows.
pub(crate) fn put_printer(
    alloc: Global,
    message: &mut Message,
    printer: PrinterView<'_>,
    rows: &[PrinterAttribute],
) -> Result<(), AllocError>
    requires { AreSettings printer.settings.now }
    ensures { OnOk result (message.new ≡ record message.old { groups = message.old.groups ++ spec.printer_group (printer_of printer.entry) rows.now ∷ [] }) }
{
    plain_attribute();
    message.group(PRINTER_ATTRIBUTES)?;
    'rows: for row in rows {
        let content = row.content(printer);
        put(alloc, message, row.name(), &content)?;
    }
    Ok(())
}

impl Selectable for PrinterAttribute {
    ghost selects = { spec.selects };

    fn is_selected(self, word: &[u8]) -> bool {
        word == self.name().as_bytes()
            || word == "all".as_bytes()
            || word == "printer-description".as_bytes()
    }
}

/// The rows of the printer that the names in these values select: a name of a row,
/// `printer-description` or `all` (RFC 8011, section 4.2.5). The one error is want of memory.
pub fn select_of_printer(alloc: Global, values: &[ValueView<'_>]) -> Result<Wanted, AllocError>
    ensures { IfOk result (λ w. rows_of w ≡ of_printer (spec.selected (words_of (values_of values.now)))) }
{
    let rows = selected_rows(alloc, &PRINTER_TABLE, values)?;
    Ok(Wanted::Printer(rows))
}
