//! What the routes are, and which path each document has: laws over the definitions, in functions that do nothing.
ghost use Rattle.std.specs.Prelude.{◌≡◌, ◌++◌, ◌<◌, ◌^◌, ℕ, List, Some, codes, decimal};
ghost use Rattle.http_head.specs.Routes.{IsSegment, route_of};
ghost use Rattle.http_head.specs.Targets.{numbers_in, routed};
ghost use Rattle.http_head.specs.declared.target.Target.TheVariants.{Document as DocumentTarget};
ghost use Rattle.http_head.specs.declared.routes.Route.TheVariants.{Document, Print, Queue, Report};

/// These paths have a route: those of IPP, of the device's reports and queue, and of documents.
pub fn routes_are_these()
    ensures print { route_of (codes "/ipp/print") ≡ Some Print }
    ensures print_of_job { (job : List ℕ) → IsSegment job → route_of (codes "/ipp/print/" ++ job) ≡ Some Print }
    ensures report { route_of (codes "/device/report") ≡ Some Report }
    ensures queue { route_of (codes "/device/queue") ≡ Some Queue }
    ensures document { (job n : List ℕ) → IsSegment job → IsSegment n → route_of (codes "/device/document/" ++ job ++ codes "/" ++ n) ≡ Some Document }
{}

/// Document n of a job stands at the path that is made of their numbers, and at no other; and no other text tells these numbers.
pub fn documents_are_numbered()
    ensures numbered { (job n : ℕ) → 0 < job → job < 2 ^ 32 → 0 < n → n < 2 ^ 32
        → routed (codes "/device/document/" ++ decimal job ++ codes "/" ++ decimal n) ≡ Some (DocumentTarget (Some (job, n))) }
    ensures alone { (path : List ℕ) (job n : ℕ) → routed path ≡ Some (DocumentTarget (Some (job, n)))
        → path ≡ codes "/device/document/" ++ decimal job ++ codes "/" ++ decimal n }
    ensures only { (text : List ℕ) (job n : ℕ) → numbers_in text ≡ Some (job, n) → text ≡ decimal job ++ codes "/" ++ decimal n }
{}
