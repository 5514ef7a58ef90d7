//! What a printer is set up with.
ghost use Rattle.std.specs.Prelude.{◌≡◌, ◌↔◌, IfOk, IsOk, Err, bytes_eq};
ghost use Rattle.std.specs.List.{list_all};
ghost use Rattle.queue_types.specs.Settings.{AreSettings, is_uri_byte};
ghost use Rattle.queue_types.specs.Uri.{printer_path};

use crate::limits::{MOST_IMPRESSIONS, MOST_KEEP};
use crate::operators::OperatorNames;
use crate::text::Text;
use crate::uri::{PRINTER_PATH, path};
use std::alloc::{AllocError, Global};
use std::marker::Model;
use thiserror::Error;

/// The most octets of a printer's URI: fewer than the 1,023 of any URI (RFC 8011, section 5.1.6), since those of its jobs are longer.
const MOST_PRINTER_URI_OCTETS: usize = 255;

/// The most octets of a printer's name (RFC 8011, section 5.4.4).
const MOST_PRINTER_NAME_OCTETS: usize = 127;

/// Why settings were refused, by its number.
#[derive(Clone, Copy, Debug, PartialEq, Eq, Error)]
pub enum SettingFault {
    /// A value is not within its limits.
    #[error("a value is not within its limits")]
    Bad = 1,
    /// Want of memory.
    #[error("there is no memory")]
    Memory = 2,
}

/// A printer's settings, which always keep their limits.
#[derive(Debug, Drop)]
pub struct Settings {
    uri: Text,
    name: Text,
    estimate: u32,
    epoch: i64,
    keep: u32,
    operators: OperatorNames,
}

impl Model for Settings {
    ghost use Rattle.queue_types.specs.Settings.{SettingValues, AreSettings};

    ghost Value = { SettingValues };

    ghost view = { λ s. record { uri = s.uri; name = s.name; estimate = s.estimate; epoch = s.epoch; keep = s.keep; operators = s.operators } };

    ghost invariant = { λ s. AreSettings (record { uri = s.uri; name = s.name; estimate = s.estimate; epoch = s.epoch; keep = s.keep; operators = s.operators }) };
}

fn has_uri_bytes(uri: &[u8]) -> bool
    ensures { result ≡ list_all is_uri_byte uri.now }
{
    uri.iter()
        .all(|b| *b >= 32 && *b <= 126 && !(*b == b'?' || *b == b'#'))
}

fn is_printer_path(path: &[u8]) -> bool
    ensures { result ≡ bytes_eq path.now printer_path }
{
    path == PRINTER_PATH.as_bytes()
}

impl Settings {
    ghost use Rattle.queue_types.specs.Settings.{SettingValues, AreSettings};

    /// Settings of these values: a URI of 1 to 255 printable ASCII characters (0x20 to 0x7e) with the path `/ipp/print`,
    /// without query and fragment; a name of 1 to 127 octets; an estimate of 0 to 100,000 pages; the
    /// epoch in seconds since 1970; 0 to 2,147,483,647 seconds for which a held or open job is kept, where
    /// 0 keeps it without end; and the operators.
    pub fn new(
        alloc: Global,
        uri: &str,
        name: &str,
        estimate: u32,
        epoch: i64,
        keep: u32,
        operators: OperatorNames,
    ) -> Result<Settings, SettingFault>
        ensures ok { IfOk result (λ s. s ≡ record { uri = uri.now; name = name.now; estimate = estimate; epoch = epoch; keep = keep; operators = operators }) }
        ensures fits { IsOk result → AreSettings (record { uri = uri.now; name = name.now; estimate = estimate; epoch = epoch; keep = keep; operators = operators }) }
        ensures bad { (result ≡ Err SettingFault.Bad) ↔ (¬ AreSettings (record { uri = uri.now; name = name.now; estimate = estimate; epoch = epoch; keep = keep; operators = operators })) }
    {
        let _number_of_operators = operators.len();
        let uri_fits = !uri.is_empty()
            && uri.len() <= MOST_PRINTER_URI_OCTETS
            && has_uri_bytes(uri.as_bytes());
        let name_fits = !name.is_empty() && name.len() <= MOST_PRINTER_NAME_OCTETS;
        if !uri_fits
            || !is_printer_path(path(uri.as_bytes()))
            || !name_fits
            || estimate > MOST_IMPRESSIONS
            || keep > MOST_KEEP
        {
            return Err(SettingFault::Bad);
        }
        let Ok(uri) = Text::copy_of(alloc, uri) else {
            return Err(SettingFault::Memory);
        };
        let Ok(name) = Text::copy_of(alloc, name) else {
            return Err(SettingFault::Memory);
        };
        Ok(Settings {
            uri,
            name,
            estimate,
            epoch,
            keep,
            operators,
        })
    }

    /// The printer's URI.
    pub fn uri(&self) -> &str
        ensures uri { result.now ≡ self.now.uri }
        ensures limits { AreSettings self.now }
    {
        self.uri.as_str()
    }

    /// The printer's name.
    pub fn name(&self) -> &str
        ensures name { result.now ≡ self.now.name }
        ensures limits { AreSettings self.now }
    {
        self.name.as_str()
    }

    /// The impressions of a job that does not say them, in pages.
    pub fn estimate(&self) -> u32
        ensures estimate { result ≡ self.now.estimate }
        ensures limits { AreSettings self.now }
    {
        self.estimate
    }

    /// The second of the clock, since 1970, that is moment 1.
    pub fn epoch(&self) -> i64
        ensures epoch { result ≡ self.now.epoch }
        ensures limits { AreSettings self.now }
    {
        self.epoch
    }

    /// The seconds for which a held or open job is kept; 0 keeps it without end.
    pub fn keep(&self) -> u32
        ensures keep { result ≡ self.now.keep }
        ensures limits { AreSettings self.now }
    {
        self.keep
    }

    /// The callers who see every job and may cancel it.
    pub fn operators(&self) -> &OperatorNames
        ensures operators { result.now ≡ self.now.operators }
        ensures limits { AreSettings self.now }
    {
        &self.operators
    }

    /// The same settings with these operators. The one error is want of memory.
    pub fn with_operators(&self, operators: OperatorNames) -> Result<Settings, AllocError>
        ensures same { IfOk result (λ s. s ≡ record self.now { operators = operators }) }
        ensures limits { IfOk result AreSettings }
    {
        let mut settings = self.try_clone()?;
        settings.operators = operators;
        Ok(settings)
    }

    /// A copy. The one error is want of memory.
    pub fn try_clone(&self) -> Result<Settings, AllocError>
        ensures same { IfOk result (λ s. s ≡ self.now) }
        ensures limits { IfOk result AreSettings }
    {
        let Settings {
            uri,
            name,
            estimate,
            epoch,
            keep,
            operators,
        } = self;
        Ok(Settings {
            uri: uri.try_clone()?,
            name: name.try_clone()?,
            estimate: *estimate,
            epoch: *epoch,
            keep: *keep,
            operators: operators.try_clone()?,
        })
    }
}
