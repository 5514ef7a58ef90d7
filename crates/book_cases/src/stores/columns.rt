//! Tables with other values, which stand for no sound queue or for another one.

use crate::stores::judge::judge_changes;
use crate::stores::tables::DAMAGED;
use std::test::Fail;

/// Values of columns, each by itself.
const UNSOUND_VALUES: &str = "\
    meta | one < 9 | one | 1 | 2; 0; -1\n\
    meta | one = 1 | schema | 3 | 0; 1; 2; 4; 99; 4294967299\n\
    meta | one = 1 | uri | 'ipp://localhost/ipp/print' | ''; 'ipp://h/x'; '/ipp/print'; 'ipp://h/ipp/print?a'; 'ipp://h/ipp/print#a'; 'ipp://\u{e9}/ipp/print'; 'ipp://' || replace('xxxxxxxxxxxxxxxx', 'x', 'hhhhhhhhhhhhhhh') || '/ipp/print'\n\
    meta | one = 1 | name | 'release' | ''; replace('xxxxxxxx', 'x', 'nnnnnnnnnnnnnnnn')\n\
    meta | one = 1 | estimate | 20 | -1; 100001; 4294967316\n\
    meta | one = 1 | next_number | 11 | 10; 1; 0; -1; 2147483649; 4294967307\n\
    jobs | number = 8 | owner | 'bob' | ''; 'bo\u{7}'; 'bo\u{7f}'; CAST(x'ff' AS TEXT); replace('xxxxxxxxxxxxxxxx', 'x', 'bbbbbbbbbbbbbbbb')\n\
    jobs | number = 7 | owner | 'alice' | 'bob'; 'dave'\n\
    jobs | number = 1 | name | 'untitled' | ''; CAST(x'610062' AS TEXT); CAST(x'c328' AS TEXT); replace('xxxxxxxxxxxxxxxx', 'x', 'bbbbbbbbbbbbbbbb')\n\
    jobs | number = 2 | copies | 1 | 0; -1; 1000; 4294967297\n\
    jobs | number = 7 | copies | 1 | 2\n\
    jobs | number = 2 | impressions | 20 | -1; 100001; 4294967316\n\
    jobs | number = 7 | impressions | 20 | 19; 21\n\
    jobs | number = 8 | hold | 1 | 0; 2; -1; 257\n\
    jobs | number = 1 | hold | 0 | 1\n\
    jobs | number = 5 | hold | 0 | 1\n\
    jobs | number = 7 | hold | 0 | 1\n\
    jobs | number = 9 | incoming | 1 | 2; -1; 257\n\
    jobs | number = 1 | incoming | 0 | 1\n\
    jobs | number = 6 | incoming | 0 | 1\n\
    jobs | number = 1 | phase | 9 | -1; 0; 1; 2; 3; 6; 7; 10; 4294967305\n\
    jobs | number = 2 | phase | 7 | 0; 1; 8; 9\n\
    jobs | number = 5 | phase | 1 | 0; 8; 9\n\
    jobs | number = 8 | phase | 0 | 1; 2; 3; 8; 9\n\
    jobs | number = 2 | why | 1 | 0; 4; -1; 257; 259\n\
    jobs | number = 1 | why | 0 | 1; 2; 3\n\
    jobs | number = 4 | why | 0 | 3; -1\n\
    jobs | number = 5 | why | 1 | 2; 4; -1; 257; 259\n\
    jobs | number = 6 | why | 0 | 1; 2; 3; -1\n\
    jobs | number = 8 | why | 0 | 1; 3; -1\n\
    jobs | number = 5 | stopping | 1 | 0; 2; -1; 257\n\
    jobs | number = 1 | stopping | 0 | 1\n\
    jobs | number = 8 | stopping | 0 | 1\n\
    jobs | number = 1 | count | 25 | 24; 26; -1; 100000001; 4294967321\n\
    jobs | number = 8 | count | 0 | 1\n\
    jobs | number = 2 | created | 3 | 0; -1; 2147483648; 4294967299\n\
    jobs | number = 1 | begun | 22 | 0; -1; 2147483648\n\
    jobs | number = 5 | begun | 29 | NULL\n\
    jobs | number = 6 | begun | 31 | NULL\n\
    jobs | number = 8 | begun | NULL | 9\n\
    jobs | number = 1 | ended | 24 | NULL; 0; -1; 2147483648\n\
    jobs | number = 2 | ended | 21 | NULL\n\
    jobs | number = 5 | ended | NULL | 40\n\
    jobs | number = 8 | ended | NULL | 40\n\
    documents | job = 1 | format | 'application/octet-stream' | ''; 'text/html'; 'Text/Plain'; 'text/plain '\n\
    documents | job = 1 | octets | 3 | 2; 4; 0; -1; 4294967299\n\
    documents | job = 7 AND doc = 2 | octets | 131073 | 131072; 65537; 131074\n\
    pieces | job = 1 | piece | 0 | 1; -1; 4294967296\n\
    pieces | job = 1 | bytes | x'6f6e65' | x'6f6e'; x'6f6e6521'; x''\n\
    pieces | job = 7 AND piece = 2 | bytes | x'00' | x''; x'0001'\n\
    accounts | name = 'alice' | free | 186 | 185; 187; free - 4294967296\n\
    accounts | name = 'alice' | reserved | 76 | 75; 77; 4294967372\n\
    accounts | name = 'alice' | printed | 38 | 37; 39; 4294967334\n\
    accounts | name = 'bob' | reserved | 0 | 1; -1\n\
    accounts | name = 'bob' | printed | 0 | 1; -1\n\
    grants | account = 'alice' | pages | 300 | 299; 301; 4294967596\n\
    grants | account = 'bob' | batch | 'f24' | ''; 'a b'; 'f\u{fc}r'; 'b' || replace('xxxx', 'x', 'bbbbbbbbbb')\n\
    reports | job = 1 AND total = 12 | seq | 2 | 0; -1; 2147483648; 4294967298\n\
    reports | job = 1 AND seq = 2 | kind | 4 | 0; 8; -1; 260\n\
    reports | job = 1 AND seq = 2 | count | 12 | 26; -1; 100000001\n\
    reports | job = 1 AND seq = 3 | count | 25 | 24\n\
    reports | job = 1 AND seq = 2 | state | 5 | 2; 10; -1; 261\n\
    reports | job = 1 AND seq = 2 | total | 12 | -1; 100000001\n\
    policy | one < 9 | one | 1 | 2; 0; -1\n\
    policy | one = 1 | keep | 3600 | -1; 2147483648; 4294970896\n\
    operators | name >= '' | name | 'opal' | ''; 'anonymous'; 'op\u{7}al'; 'opal\u{1f}'; '\u{7f}'; CAST(x'ff' AS TEXT); CAST(x'6f00' AS TEXT); replace('xxxxxxxxxxxxxxxx', 'x', 'oooooooooooooooo')";

/// Several values, or keys.
const UNSOUND_KEYS: &str = "\
    UPDATE jobs SET phase = 7, ended = 40 WHERE number = 5 => UPDATE jobs SET phase = 1, ended = NULL WHERE number = 5\n\
    UPDATE jobs SET phase = 7, stopping = 0, why = 0, ended = 40 WHERE number = 5 => UPDATE jobs SET phase = 1, stopping = 1, why = 1, ended = NULL WHERE number = 5\n\
    UPDATE jobs SET number = 11 WHERE number = 9 => UPDATE jobs SET number = 9 WHERE number = 11\n\
    UPDATE jobs SET number = 0 WHERE number = 9 => UPDATE jobs SET number = 9 WHERE number = 0\n\
    UPDATE jobs SET number = -1 WHERE number = 9 => UPDATE jobs SET number = 9 WHERE number = -1\n\
    UPDATE pieces SET piece = 3 WHERE job = 7 AND piece = 2 => UPDATE pieces SET piece = 2 WHERE job = 7 AND piece = 3\n\
    UPDATE pieces SET doc = 1, piece = 1 WHERE job = 7 AND piece = 2 => UPDATE pieces SET doc = 2, piece = 2 WHERE job = 7 AND doc = 1 AND piece = 1\n\
    UPDATE pieces SET job = 1, piece = 1 WHERE job = 2 => UPDATE pieces SET job = 2, piece = 0 WHERE job = 1 AND piece = 1\n\
    UPDATE accounts SET free = 185, reserved = 77 WHERE name = 'alice' => UPDATE accounts SET free = 186, reserved = 76 WHERE name = 'alice'\n\
    UPDATE accounts SET free = 185, printed = 39 WHERE name = 'alice' => UPDATE accounts SET free = 186, printed = 38 WHERE name = 'alice'\n\
    UPDATE grants SET pages = 0 WHERE account = 'bob'; UPDATE accounts SET free = 0 WHERE name = 'bob' => UPDATE grants SET pages = 50 WHERE account = 'bob'; UPDATE accounts SET free = 50 WHERE name = 'bob'\n\
    UPDATE grants SET pages = 1000001 WHERE account = 'bob'; UPDATE accounts SET free = 1000001 WHERE name = 'bob' => UPDATE grants SET pages = 50 WHERE account = 'bob'; UPDATE accounts SET free = 50 WHERE name = 'bob'\n\
    UPDATE grants SET batch = 'f25', account = 'bob' WHERE account = 'alice' => UPDATE grants SET batch = 'f24', account = 'alice' WHERE batch = 'f25'\n\
    UPDATE reports SET job = 2 WHERE job = 1 AND seq = 3 => UPDATE reports SET job = 1 WHERE job = 2";

#[test]
fn values_of_no_queue(rt: HostRuntime) -> Result<(), Fail> {
    judge_changes(rt.alloc(), DAMAGED, UNSOUND_VALUES, UNSOUND_KEYS)
}

/// Values at their limits, moments that fall, and values that nothing ties to others.
const SOUND_VALUES: &str = "\
    meta | one = 1 | epoch | 0 | -9223372036854775807; 9223372036854775807\n\
    meta | one = 1 | estimate | 20 | 0; 100000\n\
    meta | one = 1 | next_number | 11 | 12; 2147483648\n\
    meta | one = 1 | uri | 'ipp://localhost/ipp/print' | ':///ipp/print'; 'ipp://h' || replace('xxxxxxxxxxxxxx', 'x', 'hhhhhhhhhhhhhhhhh') || '/ipp/print'\n\
    meta | one = 1 | name | 'release' | 'x'; 'nnnnnnn' || replace('xxxxxxxx', 'x', 'nnnnnnnnnnnnnnn')\n\
    jobs | number = 8 | owner | 'bob' | 'dave'; '\u{fc}'; 'bbbbb' || replace('xxxxxxxxxx', 'x', 'bbbbbbbbbbbbbbbbbbbbbbbbb')\n\
    jobs | number = 1 | name | 'untitled' | CAST(x'0761' AS TEXT)\n\
    jobs | number = 2 | copies | 1 | 999\n\
    jobs | number = 2 | impressions | 20 | 0; 100000\n\
    jobs | number = 5 | phase | 1 | 2\n\
    jobs | number = 1 | phase | 9 | 8\n\
    jobs | number = 2 | why | 1 | 2; 3\n\
    jobs | number = 3 | why | 2 | 1; 3\n\
    jobs | number = 5 | why | 1 | 3\n\
    jobs | number = 1 | created | 2 | 1; 2147483647\n\
    jobs | number = 1 | begun | 22 | NULL; 1; 2147483647\n\
    jobs | number = 1 | ended | 24 | 1; 2147483647\n\
    documents | job = 1 | format | 'application/octet-stream' | 'application/pdf'; 'application/postscript'; 'image/jpeg'; 'image/pwg-raster'; 'image/urf'; 'text/plain'\n\
    pieces | job = 1 | bytes | x'6f6e65' | x'000000'\n\
    grants | account = 'bob' | batch | 'f24' | 'A-z.0_9'; replace('xxxx', 'x', 'bbbbbbbbbb')\n\
    reports | job = 1 AND total = 12 | seq | 2 | 4; 2147483647\n\
    reports | job = 1 AND seq = 2 | kind | 4 | 1; 2; 3; 5; 6; 7\n\
    reports | job = 1 AND seq = 2 | count | 12 | 0; 25\n\
    reports | job = 1 AND seq = 2 | state | 5 | 3; 9\n\
    reports | job = 1 AND seq = 2 | total | 12 | 0; 100000000\n\
    policy | one = 1 | keep | 3600 | 0; 1; 2147483647\n\
    operators | name >= '' | name | 'opal' | 'alice'; 'Anonymous'; ' '; '\u{80}'; 'ooooo' || replace('xxxxxxxxxx', 'x', 'ooooooooooooooooooooooooo')";

/// Rows that come and go, and indexes that go, on which no answer rests.
const SOUND_ROWS: &str = "\
    UPDATE jobs SET number = 2147483647 WHERE number = 9; UPDATE meta SET next_number = 2147483648 => UPDATE jobs SET number = 9 WHERE number = 2147483647; UPDATE meta SET next_number = 11\n\
    DELETE FROM pieces WHERE job = 8; DELETE FROM documents WHERE job = 8 => INSERT INTO documents VALUES (8, 1, 'application/octet-stream', 5); INSERT INTO pieces VALUES (8, 1, 0, x'6569676874')\n\
    INSERT INTO grants VALUES ('f25', 'bob', 7); UPDATE accounts SET free = 57 WHERE name = 'bob' => DELETE FROM grants WHERE batch = 'f25'; UPDATE accounts SET free = 50 WHERE name = 'bob'\n\
    DROP INDEX jobs_by_owner => CREATE INDEX jobs_by_owner ON jobs (owner, phase)\n\
    DROP INDEX jobs_by_age => CREATE INDEX jobs_by_age ON jobs (phase, created)\n\
    DROP INDEX jobs_by_ended => CREATE INDEX jobs_by_ended ON jobs (ended)\n\
    UPDATE jobs SET stopping = 1, why = 1 WHERE number = 6 => UPDATE jobs SET stopping = 0, why = 0 WHERE number = 6\n\
    UPDATE jobs SET stopping = 1, why = 3 WHERE number = 6 => UPDATE jobs SET stopping = 0, why = 0 WHERE number = 6\n\
    DELETE FROM operators => INSERT INTO operators VALUES ('opal')\n\
    INSERT INTO operators VALUES ('a'), ('b'), ('c'), ('d'), ('e'), ('f'), ('g'), ('h'), ('i'), ('j'), ('k'), ('l'), ('m'), ('n'), ('o') => DELETE FROM operators WHERE name <> 'opal'\n\
    INSERT INTO reports VALUES (8, 5, 4, 0, 4, 0) => DELETE FROM reports WHERE job = 8";

#[test]
fn values_of_another_queue(rt: HostRuntime) -> Result<(), Fail> {
    judge_changes(rt.alloc(), Ok(()), SOUND_VALUES, SOUND_ROWS)
}
