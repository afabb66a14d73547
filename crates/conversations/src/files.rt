//! The served files over a committed image in memory.
ghost use Rattle.std.specs.Prelude.{◌≡◌, ◌≢◌, IfOk, IfErr, OnOk, OnErr, length, Some, false};
ghost use Rattle.lf_sqlite_pages.specs.Apply.{Fits, apply};
ghost use Rattle.file_view.specs.Done.{IsDone};
ghost use Rattle.file_view.specs.Endings.{applied, committed, dropped, ended};
ghost use Rattle.file_view.specs.Needs.{needs_of};
ghost use Rattle.file_view.specs.Refusal.{HasCause};
ghost use Rattle.file_view.specs.Requests.{rows_of};
ghost use Rattle.file_view.specs.Views.{new_view};
ghost use Rattle.test_base.specs.declared.fault.Fault.TheVariants as fault;
ghost use Rattle.conversations.specs.Standing.{Stand, Await, AwaitWhere, scene_over};
ghost use Rattle.std.proofs.Props.{props};

use file_view::{
    Plan, Role, View, ViewFault, applied_view_stands, endings_keep_the_image, new_view_stands,
};
use fuse_msgs::Request;
use lf_base::{Name, NoMemory, Pos};
use lf_sqlite_pages::{Change, Image};
use std::alloc::Global;
use test_base::Fault;

/// The served files of a database, over the image that is committed.
#[derive(Drop)]
pub struct Files {
    view: View,
    image: Image,
    ghost stand: { Stand image view } by { Prim.hlevel props },
}

impl Files {
    /// The files before any request.
    pub fn new(alloc: Global, name: &Name, image: Image) -> Result<Files, NoMemory>
        ensures image { IfOk result (λ files. files.image ≡ image) }
        ensures view { IfOk result (λ files. files.view ≡ new_view name.now) }
    {
        new_view_stands();
        let _pages = image.commit();
        let view = View::new(alloc, name)?;
        Ok(Files { view, image })
    }

    pub fn image(&self) -> &Image
        ensures { result.now ≡ self.now.image }
    {
        &self.image
    }

    /// From now on the position reads as this one.
    pub fn tell(&mut self, position: Pos)
        ensures image { self.new.image ≡ self.old.image }
        ensures view { self.new.view ≡ record self.old.view { position = position } }
    {
        endings_keep_the_image();
        self.view.told_position(position);
    }

    /// A session ends.
    pub fn end_session(&mut self, link: u64)
        ensures image { self.new.image ≡ self.old.image }
        ensures view { self.new.view ≡ ended self.old.view link }
    {
        endings_keep_the_image();
        let _pages = self.image.commit();
        self.view.end_session(link);
    }

    /// The uncommitted pages go, since the node is no longer one that writes.
    pub fn drop_uncommitted(&mut self)
        ensures image { self.new.image ≡ self.old.image }
        ensures view { self.new.view ≡ dropped self.old.view }
    {
        endings_keep_the_image();
        let _pages = self.image.commit();
        self.view.drop_uncommitted();
    }

    /// The committed image is another now.
    pub fn apply(&mut self, image: Image)
        ensures image { self.new.image ≡ image }
        ensures view { self.new.view ≡ applied self.old.view image.page_size (length image.pages) }
    {
        applied_view_stands();
        let pages = image.commit();
        self.view.applied(image.page_size(), pages);
        self.image = image;
    }

    /// Asks what becomes of a request.
    pub fn ask(
        &mut self,
        alloc: Global,
        link: u64,
        role: Role,
        request: &Request,
    ) -> Result<Plan, ViewFault>
        ensures image { self.new.image ≡ self.old.image }
        ensures done { IfOk result (λ plan. IsDone (Some self.old.image) self.old.view (scene_over self.old.image link role) request.now plan self.new.view) }
        ensures cause { IfErr result (HasCause (needs_of self.old.view request.now) (rows_of self.old.view (scene_over self.old.image link role) request.now)) }
        ensures err { OnErr result (self.new.view ≡ self.old.view) }
        ensures awaits { IfOk result (AwaitWhere self.new.image self.new.view) }
    {
        self.view
            .prepare(alloc, link, role, request, &mut self.image)
    }

    /// Commits the change for which a request waits.
    pub fn commit(&mut self, change: &Change) -> Result<(), Fault>
        requires { Await self.old.image self.old.view change.now }
        ensures image { OnOk result (self.new.image ≡ apply self.old.image change.now) }
        ensures view { OnOk result (self.new.view ≡ committed self.old.view) }
        ensures fits { OnOk result (Fits self.old.image change.now) }
        ensures record_fault { result ≡ Err fault.Row → ¬ Fits self.old.image change.now }
        ensures fault { IfErr result (λ why. why ≢ fault.Io) }
        ensures err { OnErr result (self.new ≡ self.old) }
    {
        if !self.image.fits(change) {
            return Err(Fault::Row);
        }
        self.image.apply(change)?;
        self.view.commit_done();
        Ok(())
    }
}
