//! The command `serve`, by its words.

use crate::desk::compare::{Failed, Mismatch, failed_at};
use crate::desk::connection::Wanted::Success;
use crate::desk::messages::{
    DONE as NO_JOBS, GET_JOBS, GET_OWN_JOBS, GET_STATE, GET_UP_TIME, IS_ABORTED, JOB_1, JOB_2,
    JOBS_1_AND_2, PRINT_JOB,
};
use crate::desk::requests::{
    IPP, POST_GET_JOBS, POST_GET_OWN_JOBS, POST_JOB, POST_STATE, POST_UP_TIME,
};
use crate::desk::streams::NO_ROOM;
use crate::program::expiry::{HELD, MADE_WITH_KEEP};
use crate::program::folder::Step::{Copies, IsEmpty, Keeps, Lacks, TakenPort, Tells, Unprinted};
use crate::program::folder::{
    AT, DISK, DONE, EXPIRE, FILE, Folder, IMPORT, IMPORTED, INIT, IO, MADE, OPERATORS, REPEATED,
    Row, STATEMENT, STORE, Step, take_rows,
};
use crate::program::serving::Turn::{Serves, Takes};
use crate::program::sockets::Comes::{Sends, SendsLast};
use crate::program::sockets::Gets::{All, Seconds};
use crate::program::sockets::{Clients, Comes, Gets, free_port};
use std::io;
use std::io::Write;
use std::net::{Ipv4Addr, SocketAddr, TcpListener};
use std::rt::Clock;
use std::test::Fail;

/// A server over a store, which ends well.
struct Serving {
    /// The words that tell the store, and the seconds that it waits for a client.
    words: &'static str,
    /// The steps that are taken as it listens.
    steps: &'static [Step],
    /// Its clients, which come behind them, one after another: how, and what each gets.
    clients: &'static [(Comes<'static>, Gets<'static>)],
    /// The lines that it prints of them.
    counts: &'static str,
    /// It takes so many seconds at least, and fewer than so many.
    seconds: (u64, u64),
}

/// What is done next.
enum Turn {
    Takes(&'static [Step]),
    Serves(Serving),
}

/// An output that has clients: as it is first flushed, steps are taken in the folder of the test, and the clients come.
#[derive(Drop)]
struct Greeter<'a> {
    folder: &'a Folder<'a>,
    serving: &'a Serving,
    port: u16,
    /// The line that tells the port.
    listening: String,
    printed: Vec<u8>,
    clients: Clients,
    /// That line, and no more, was printed before the steps, they were well, and its clients came.
    greeted: Result<(), Failed>,
}

impl Write for Greeter<'_> {
    fn write(&mut self, buf: &[u8]) -> io::Result<usize> {
        if self.printed.extend_from_slice(buf).is_err() {
            return Err(io::Error::other("memory"));
        }
        Ok(buf.len())
    }

    fn flush(&mut self) -> io::Result<()> {
        if self.clients.is_empty() {
            self.greeted = self.greet();
        }
        if self.greeted.is_ok() {
            Ok(())
        } else {
            // a server whose clients don't come would wait for them
            Err(io::Error::other("a step"))
        }
    }
}

impl Greeter<'_> {
    /// Takes the steps, and its clients come.
    fn greet(&mut self) -> Result<(), Failed> {
        self.folder
            .take_each("as a server listens", self.serving.steps)?;
        match self.add_clients() {
            Ok(()) => Ok(()),
            Err(why) => Err(failed_at("clients of a server that listens", 0, why)),
        }
    }

    /// The port is taken on one address alone: another of the loopback interface is still free.
    fn add_clients(&mut self) -> Result<(), Mismatch> {
        AT.same_bytes(self.listening.as_bytes(), self.printed.as_slice())?;
        let _other = TcpListener::bind(
            self.folder.rt(),
            SocketAddr::from((Ipv4Addr::new(127, 0, 0, 2), self.port)),
        )?;
        let address = SocketAddr::from((Ipv4Addr::LOCALHOST, self.port));
        for (comes, _) in self.serving.clients {
            self.clients.add(self.folder.rt(), address, *comes)?;
        }
        Ok(())
    }

    /// The server, which such a line asks for, has done what it is to do.
    fn is_printed_to(&mut self, line: &str) -> Result<(), Fail> {
        let folder = self.folder;
        let began = folder.rt().monotonic()?;
        let ran = folder.tell_to(line, self, (0, ""));
        let seconds = folder.rt().monotonic()?.saturating_sub(began).as_secs();
        self.greeted?;
        ran?;
        let Serving {
            clients,
            counts,
            seconds: (least, most),
            ..
        } = *self.serving;
        let printed = self
            .printed
            .as_slice()
            .strip_prefix(self.listening.as_bytes());
        AT.same_bytes(counts.as_bytes(), printed.unwrap_or(b""))?;
        AT.is_so(
            least <= seconds && seconds < most,
            "the seconds that a server takes",
        )?;
        for (number, (_, gets)) in clients.iter().enumerate() {
            self.clients.get(number, *gets)?;
        }
        Ok(())
    }
}

/// A server does what it is to do, on a port that nobody else listens on.
fn serve<'a>(folder: &'a Folder<'a>, serving: &'a Serving) -> Result<(), Fail> {
    let alloc = folder.alloc();
    let port = free_port(folder.rt())?;
    let listening = format!(in alloc; "listening 127.0.0.1:{port}\n")?;
    let line = format!(in alloc;
        "printd serve {} --port {port} --connections {}",
        serving.words,
        serving.clients.len()
    )?;
    let mut out = Greeter {
        folder,
        serving,
        port,
        listening,
        printed: Vec::new(alloc),
        clients: Clients::new(alloc),
        greeted: Ok(()),
    };
    out.is_printed_to(line.as_str())
}

/// Takes turns, one after another, in a new folder.
fn take_turns(rt: &HostRuntime, name: &str, turns: &[Turn]) -> Result<(), Fail> {
    let folder = Folder::new(rt, "served")?;
    for turn in turns {
        match turn {
            Takes(steps) => folder.take_each(name, steps)?,
            Serves(serving) => serve(&folder, serving)?,
        }
    }
    folder.remove();
    Ok(())
}

/// A client prints.
const PRINTS: Comes<'static> = SendsLast(&[POST_JOB, PRINT_JOB]);

/// Get-Printer-Attributes of `printer-name`: 150 bytes, behind its head.
const POST_NAME: &[u8] =
    b"POST /ipp/print HTTP/1.1\r\nContent-Type: application/ipp\r\nContent-Length: 150\r\n\r\n\x01\x01\x00\x0b\x0a\x0b\x0c\x0d\x01G\x00\x12attributes-charset\x00\x05utf-8H\x00\x1battributes-natural-language\x00\x02enE\x00\x0bprinter-uri\x00\x19ipp://localhost/ipp/printD\x00\x14requested-attributes\x00\x0cprinter-name\x03";

/// The reply of a printer that is named `other`.
const NAMED_OTHER: &[u8] =
    b"\x01\x01\x00\x00\x0a\x0b\x0c\x0d\x01G\x00\x12attributes-charset\x00\x05utf-8H\x00\x1battributes-natural-language\x00\x02en\x04B\x00\x0cprinter-name\x00\x05other\x03";

/// Get-Job-Attributes of `job-impressions` of job 1 by alice: 198 bytes, behind its head.
const POST_IMPRESSIONS: &[u8] =
    b"POST /ipp/print HTTP/1.1\r\nContent-Type: application/ipp\r\nContent-Length: 198\r\n\r\n\x01\x01\x00\x09\x0a\x0b\x0c\x0d\x01G\x00\x12attributes-charset\x00\x05utf-8H\x00\x1battributes-natural-language\x00\x02enE\x00\x0bprinter-uri\x00\x19ipp://localhost/ipp/print!\x00\x06job-id\x00\x04\x00\x00\x00\x01B\x00\x14requesting-user-name\x00\x05aliceD\x00\x14requested-attributes\x00\x0fjob-impressions\x03";

/// The reply of a job of 7 impressions.
const OF_7_PAGES: &[u8] =
    b"\x01\x01\x00\x00\x0a\x0b\x0c\x0d\x01G\x00\x12attributes-charset\x00\x05utf-8H\x00\x1battributes-natural-language\x00\x02en\x02!\x00\x0fjob-impressions\x00\x04\x00\x00\x00\x07\x03";

/// Servers over stores, each row in a folder of its own.
static SERVED: [(&str, &[Turn]); 6] = [
    // What a server took stands in the store that the next one opens. A store is whole in its one file once its server has ended, so that a
    // copy of that file alone is served too.
    (
        "a store that is served again",
        &[
            Takes(&[MADE]),
            Serves(Serving {
                words: "--store @/store --timeout 1",
                steps: &[],
                clients: &[(PRINTS, All(&[Success(IPP, JOB_1)]))],
                counts: "served 1\n",
                seconds: (0, 60),
            }),
            Takes(&[Copies(STORE, FILE, 8)]),
            Serves(Serving {
                words: "--store @/store --timeout 1",
                steps: &[],
                clients: &[(PRINTS, All(&[Success(IPP, JOB_2)]))],
                counts: "served 1\n",
                seconds: (0, 60),
            }),
            Serves(Serving {
                words: "--store @/file --timeout 1",
                steps: &[],
                clients: &[(PRINTS, All(&[Success(IPP, JOB_2)]))],
                counts: "served 1\n",
                seconds: (0, 60),
            }),
        ],
    ),
    // A command on a store that is served is refused, and the store stays as it was. Once its server has ended it isn't.
    (
        "a store in use",
        &[
            Takes(&[MADE, IMPORTED]),
            Serves(Serving {
                words: "--store @/store --timeout 1",
                steps: &[
                    Keeps(STORE, STATEMENT, DISK),
                    Keeps(STORE, IMPORT, DISK),
                    Keeps(STORE, EXPIRE, DISK),
                    Keeps(STORE, INIT, DISK),
                ],
                clients: &[(PRINTS, All(&[Success(IPP, JOB_1)]))],
                counts: "served 1\n",
                seconds: (0, 60),
            }),
            Takes(&[REPEATED]),
        ],
    ),
    // A client is silent, and behind it another asks for the printer's up time. The silent one is given up after the fifteen seconds that the
    // words say: ten more than the default, so that what a store takes to open doesn't hide that the default was heard. A printer is up from
    // the second at which its store is made, the first of its moments.
    (
        "a silent client, and the seconds since a store was made",
        &[
            Takes(&[MADE]),
            Serves(Serving {
                words: "--store @/store --timeout 15",
                steps: &[],
                clients: &[
                    (Sends(&[]), All(&[])),
                    (SendsLast(&[POST_UP_TIME, GET_UP_TIME]), Seconds(16, 60)),
                ],
                counts: "served 0\nserved 1\n",
                seconds: (15, 30),
            }),
        ],
    ),
    // The printer is named `other` and takes 7 pages for a job that does not say them. A client asks for its name, and another prints such a
    // job and asks for them.
    (
        "settings and connections of the words",
        &[
            Takes(&[Tells(
                "printd init --store @/store --uri ipp://localhost/ipp/print --name other --estimate 7",
                DONE,
            )]),
            Serves(Serving {
                words: "--store @/store --timeout 1",
                steps: &[],
                clients: &[
                    (SendsLast(&[POST_NAME]), All(&[Success(IPP, NAMED_OTHER)])),
                    (
                        SendsLast(&[POST_JOB, PRINT_JOB, POST_IMPRESSIONS]),
                        All(&[Success(IPP, JOB_1), Success(IPP, OF_7_PAGES)]),
                    ),
                ],
                counts: "served 1\nserved 2\n",
                seconds: (0, 60),
            }),
        ],
    ),
    // The jobs of the store have expired: they end before the first client is served, and none is left to expire.
    (
        "jobs that have expired before a client comes",
        &[
            Takes(&[MADE_WITH_KEEP, IMPORTED, HELD]),
            Serves(Serving {
                words: "--store @/store --timeout 1",
                steps: &[],
                clients: &[(
                    SendsLast(&[POST_STATE, GET_STATE]),
                    All(&[Success(IPP, IS_ABORTED)]),
                )],
                counts: "served 1\n",
                seconds: (0, 60),
            }),
            Takes(&[Tells(EXPIRE, (0, "expired 0\n", ""))]),
        ],
    ),
    // An operator lists the jobs of alice, and has none of its own. Its number was not printed, and it is one all the same. Then another is.
    (
        "operators of a store that is served",
        &[
            Takes(&[MADE, IMPORTED, HELD, Unprinted(OPERATORS, NO_ROOM)]),
            Serves(Serving {
                words: "--store @/store --timeout 1",
                steps: &[Keeps(STORE, OPERATORS, DISK)],
                clients: &[(
                    SendsLast(&[POST_GET_JOBS, GET_JOBS, POST_GET_OWN_JOBS, GET_OWN_JOBS]),
                    All(&[Success(IPP, JOBS_1_AND_2), Success(IPP, NO_JOBS)]),
                )],
                counts: "served 2\n",
                seconds: (0, 60),
            }),
            Takes(&[Tells(
                "printd operators --store @/store pearl",
                (0, "operators 1\n", ""),
            )]),
            Serves(Serving {
                words: "--store @/store --timeout 1",
                steps: &[],
                clients: &[(
                    SendsLast(&[POST_GET_JOBS, GET_JOBS]),
                    All(&[Success(IPP, NO_JOBS)]),
                )],
                counts: "served 1\n",
                seconds: (0, 60),
            }),
        ],
    ),
];

#[test]
fn stores_that_are_served(rt: HostRuntime) -> Result<(), Fail> {
    for (name, turns) in &SERVED {
        take_turns(&rt, name, turns)?;
    }
    Ok(())
}

/// A server makes no store, and isn't on a port that another listens on. That there is no store is told first.
static REFUSED: [Row; 2] = [
    (
        "a store that is not there",
        &[
            Tells(
                "printd serve --store @/store --port 8631 --connections 1",
                DISK,
            ),
            IsEmpty,
        ],
    ),
    (
        "a port that another has",
        &[
            MADE,
            TakenPort("printd serve --store @/store --connections 1", IO),
            TakenPort("printd serve --store @/file --connections 1", DISK),
            Lacks(FILE),
        ],
    ),
];

#[test]
fn servers_that_cannot_begin(rt: HostRuntime) -> Result<(), Fail> {
    take_rows(&rt, "unserved", &REFUSED)
}
