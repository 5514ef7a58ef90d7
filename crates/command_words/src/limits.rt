//! The options that take numbers: their names, their limits and their usual values.

/// The least and the most that a number may be.
#[derive(Clone, Copy)]
pub(crate) struct Limits {
    /// The least.
    pub(crate) least: u32,
    /// The most.
    pub(crate) most: u32,
}

/// An option that takes a number.
#[derive(Clone, Copy)]
pub(crate) struct NumberOption {
    /// Its name, without the two dashes.
    pub(crate) name: &'static str,
    /// The limits of the number.
    pub(crate) limits: Limits,
}

/// The pages that one copy takes of a job that doesn't tell them.
pub(crate) const ESTIMATE: NumberOption = NumberOption {
    name: "estimate",
    limits: Limits {
        least: 0,
        most: 100_000,
    },
};

/// The estimate where the words leave it out, as a word.
pub(crate) const USUAL_ESTIMATE: &str = "20";

/// The seconds for which a held or open job is kept; 0 keeps it without end.
pub(crate) const KEEP: NumberOption = NumberOption {
    name: "keep",
    limits: Limits {
        least: 0,
        most: 2_147_483_647,
    },
};

/// The seconds, as a word, if the words leave them out.
pub(crate) const USUAL_KEEP: &str = "0";

/// A port that is listened on.
pub(crate) const PORT: NumberOption = NumberOption {
    name: "port",
    limits: Limits {
        least: 1,
        most: 65_535,
    },
};

/// How many connections are served.
pub(crate) const CONNECTIONS: NumberOption = NumberOption {
    name: "connections",
    limits: Limits {
        least: 1,
        most: u32::MAX,
    },
};

/// The seconds that a read or a write of a connection may wait.
pub(crate) const TIMEOUT: NumberOption = NumberOption {
    name: "timeout",
    limits: Limits {
        least: 1,
        most: 3_600,
    },
};

/// The timeout where the words leave it out, as a word.
pub(crate) const USUAL_TIMEOUT: &str = "5";
