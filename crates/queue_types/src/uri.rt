//! The path of a URI (RFC 3986, section 3.3), by which a request names the printer or a job: from the first slash behind `://` up to the
//! query or the fragment. A `?` or `#` before that slash, which ends an authority (section 3.2), is not looked for.
ghost use Rattle.std.specs.Prelude.{◌≡◌, ◌≢◌, ◌⊎◌, ◌==◌, ◌||◌, ◌++◌, ◌∷◌, [], ℕ, List, codes, drop, not, true};
ghost use Rattle.std.specs.List.{list_all, position, position_or_len, before_first};
ghost use Rattle.std.specs.Str.{byte};
ghost use Rattle.queue_types.specs.Uri.{behind_mark, path_of};

/// The path under which the printer is found.
pub const PRINTER_PATH: &str = "/ipp/print";

/// What follows the first "://".
fn after_scheme(uri: &[u8]) -> &[u8]
    ensures { result.now ≡ behind_mark uri.now }
{
    let mut at = uri;
    while let [_, rest @ ..] = at {
        if let Some(behind) = at.strip_prefix(b"://") {
            return behind;
        }
        at = rest;
    }
    at
}

fn slash_at(rest: &[u8]) -> Option<usize>
    ensures { result ≡ position (λ b. b == byte "/") rest.now }
{
    rest.iter().position(|b| *b == b'/')
}

fn from_slash(rest: &[u8]) -> &[u8]
    ensures { result.now ≡ drop (position_or_len (λ b. b == byte "/") rest.now) rest.now }
{
    match slash_at(rest) {
        Some(i) => &rest[i..],
        None => &[],
    }
}

fn query_at(path: &[u8]) -> Option<usize>
    ensures { result ≡ position (λ b. b == byte "?" || b == byte "#") path.now }
{
    path.iter().position(|b| *b == b'?' || *b == b'#')
}

fn up_to_query(path: &[u8]) -> &[u8]
    ensures { result.now ≡ before_first (λ b. b == byte "?" || b == byte "#") path.now }
{
    match query_at(path) {
        Some(i) => &path[..i],
        None => path,
    }
}

/// The path of a URI: from the first slash behind "://", up to the query or the fragment. It is empty
/// where there is no "://" or no slash behind it.
pub fn path(uri: &[u8]) -> &[u8]
    ensures { result.now ≡ path_of uri.now }
{
    up_to_query(from_slash(after_scheme(uri)))
}

/// A URI of a scheme, `://`, an authority, a path, and a query or a fragment or neither, has that path (RFC 3986, section 3). One in which no `://`
/// stands, or no slash behind it, has none.
pub fn uris_have_paths()
    ensures found { (scheme authority path rest : List ℕ)
        → list_all (λ b. not (b == byte ":")) scheme ≡ true → list_all (λ b. not (b == byte "/")) authority ≡ true
        → list_all (λ b. not (b == byte "?" || b == byte "#")) path ≡ true
        → (rest ≡ []) ⊎ ((more : List ℕ) × ((rest ≡ byte "?" ∷ more) ⊎ (rest ≡ byte "#" ∷ more)))
        → path_of (scheme ++ codes "://" ++ (authority ++ byte "/" ∷ (path ++ rest))) ≡ byte "/" ∷ path }
    ensures unmarked { (uri : List ℕ) → ((front rest : List ℕ) → uri ≢ front ++ codes "://" ++ rest) → path_of uri ≡ [] }
    ensures unrooted { (scheme authority : List ℕ)
        → list_all (λ b. not (b == byte ":")) scheme ≡ true → list_all (λ b. not (b == byte "/")) authority ≡ true
        → path_of (scheme ++ codes "://" ++ authority) ≡ [] }
{}
