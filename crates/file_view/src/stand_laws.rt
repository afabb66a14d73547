//! Laws of the served files over the committed image, each the contract of a function that does nothing
//! else.
ghost use Rattle.std.specs.Prelude.{◌≡◌, ◌<◌, ℕ, true, Option, Some, List};
ghost use Rattle.byte_locks.specs.declared.owner.Owner.{Owner as Holder};
ghost use Rattle.lf_sqlite_pages.specs.Image.{DatabaseImage};
ghost use Rattle.lf_sqlite_pages.specs.PageSize.{IsPageSize};
ghost use Rattle.fuse_msgs.specs.declared.request.Request.{Request as Asked};
ghost use Rattle.file_view.specs.declared.requests.Plan.{Plan as Planned};
ghost use Rattle.file_view.specs.declared.view.Role.TheVariants as role;
ghost use Rattle.file_view.specs.declared.view.Scene.{Scene as Over};
ghost use Rattle.file_view.specs.Acting.{is_many};
ghost use Rattle.file_view.specs.Committers.{CommitsFor};
ghost use Rattle.file_view.specs.Done.{IsDone};
ghost use Rattle.file_view.specs.Endings.{dropped, ended, committed, abandoned, applied};
ghost use Rattle.file_view.specs.Overlay.{StandsOver};
ghost use Rattle.file_view.specs.Refusal.{IsAllowed};
ghost use Rattle.file_view.specs.Requests.{rows_of};
ghost use Rattle.file_view.specs.Served.{Served, log_contents, waits};
ghost use Rattle.file_view.specs.Sound.{IsSound};
ghost use Rattle.file_view.specs.Steady.{IsQuiet, SameDatabase, CommitsNothing, GoesOn};
ghost use Rattle.file_view.specs.Views.{new_view};

/// A new view stands over every image.
pub fn new_view_stands()
    ensures { (name : List ℕ) (told : Option DatabaseImage) (page_size commit : ℕ) → (0 < commit → IsPageSize page_size) → StandsOver told page_size commit (new_view name) }
{}

/// A view to which another image was applied stands over every image of that page size and number of
/// pages.
pub fn applied_view_stands()
    ensures { (s : Served) (told : Option DatabaseImage) (page_size commit : ℕ) → (0 < commit → IsPageSize page_size) → StandsOver told page_size commit (applied s page_size commit) }
{}

/// What happens beside requests leaves the files over the image where they stood: uncommitted pages
/// that are dropped, the end of a session, a request that is given up, and whatever leaves the database
/// file, its writer and the log.
pub fn endings_keep_the_image()
    ensures dropped { (s : Served) (told : Option DatabaseImage) (page_size commit : ℕ) → (0 < commit → IsPageSize page_size) → StandsOver told page_size commit s
        → StandsOver told page_size commit (dropped s) }
    ensures ended { (s : Served) (session : ℕ) (told : Option DatabaseImage) (page_size commit : ℕ) → (0 < commit → IsPageSize page_size)
        → StandsOver told page_size commit s → StandsOver told page_size commit (ended s session) }
    ensures abandoned { (s : Served) (told : Option DatabaseImage) (page_size commit : ℕ) → StandsOver told page_size commit s → StandsOver told page_size commit (abandoned s) }
    ensures others { (old new : Served) (told : Option DatabaseImage) (page_size commit : ℕ) → new.database ≡ old.database → new.writer ≡ old.writer → log_contents new ≡ log_contents old
        → StandsOver told page_size commit old → StandsOver told page_size commit new }
{}

/// While a request waits for its commit, no other request changes what stands once it is done, and none
/// waits beside it; nor do uncommitted pages that are dropped, or the end of a session.
pub fn waiting_requests_go_on()
    ensures request { (told : Option DatabaseImage) (old new : Served) (scene : Over) (request : Asked) (plan : Planned) → IsSound old → waits old ≡ true
        → IsAllowed (rows_of old scene request) → IsDone told old scene request plan new → GoesOn old new × CommitsNothing plan }
    ensures dropped { (s : Served) → GoesOn s (dropped s) }
    ensures ended { (s : Served) (session : ℕ) → GoesOn s (ended s session) }
    ensures committed { (old new : Served) (told : Option DatabaseImage) (page_size commit : ℕ) → IsSound old → GoesOn old new
        → StandsOver told page_size commit (committed old) → StandsOver told page_size commit (committed new) }
{}

/// In a session that speaks for many owners a request that commits uncommitted pages names the owner of them.
pub fn many_owners_commit_their_own()
    ensures { (told : Option DatabaseImage) (old new : Served) (scene : Over) (request : Asked) (plan : Planned) (owner : Holder) → IsSound old
        → is_many old.locks scene.session ≡ true → old.writer ≡ Some owner → IsAllowed (rows_of old scene request) → IsDone told old scene request plan new
        → CommitsFor owner scene request.op plan }
{}

/// At a replica where nobody writes a request leaves the database as it reads, and nobody writes
/// afterwards. So does the end of a session.
pub fn replica_requests_leave_the_database()
    ensures request { (told : Option DatabaseImage) (old new : Served) (scene : Over) (request : Asked) (plan : Planned) → scene.role ≡ role.Replica → IsQuiet old
        → IsAllowed (rows_of old scene request) → IsDone told old scene request plan new → SameDatabase old new × IsQuiet new × CommitsNothing plan }
    ensures ended { (s : Served) (session : ℕ) → IsQuiet s → SameDatabase s (ended s session) × IsQuiet (ended s session) }
{}
