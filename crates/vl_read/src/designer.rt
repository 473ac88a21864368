ghost use Rattle.std.specs.Prelude.{◌≡◌, [], ◌∷◌, ◌++◌, IfOk, true};
ghost use Rattle.vl_ast.specs.declared.modules.Module.{Module};
ghost use Rattle.vl_read.specs.declared.designer.Designer.{Designer};
ghost use Rattle.vl_read.specs.declared.designer.Scope.TheVariants.{Together};
ghost use Rattle.vl_read.specs.declared.designer.Joint.TheVariants.{Outside, Named, Ported, Linked, Closed};
ghost use Rattle.vl_read.specs.declared.places.Place.TheVariants.{Items, Done};
ghost use Rattle.vl_read.specs.inner.Designs.{Sketch, begin_instance, expect_joint, finish_design, first_sketch, inside_step, outside_step, over_next, sketch_step};
ghost use Rattle.vl_read.specs.inner.DesignerFields.{gathered, gathered_at, gathered_next, joint_seen, told};
ghost use Rattle.vl_read.specs.inner.Lexemes.{kind_of};
ghost use Rattle.vl_read.specs.inner.Plain.{finish};
ghost use Rattle.vl_read.specs.inner.ReaderPlaces.{seen};

use crate::design::Design;
use crate::numbers::is_name;
use crate::places::{Place, Reader};
use crate::scan::is;
use fx_io::{OutOfMemory, Text};
use std::alloc::Global;
use std::mem;
use vl_ast::{Instance, Instances, Link, Links, Module, Modules};

/// What a text is read as.
#[derive(Clone, Copy)]
pub enum Scope {
    /// A module alone, with no instance in it.
    Alone,
    /// Modules one after another, with instances in the last.
    Together,
}

/// Where in an instance the reading is. What was read of it stands in `Designer`.
#[derive(Clone, Copy)]
pub enum Joint {
    /// In none.
    Outside,
    /// Its name is next.
    Named,
    /// `(` is next, and then a link.
    Opened,
    /// `.` is next.
    Dotted,
    /// A port is next.
    Ported,
    /// `(` is next, and then the net.
    Begun,
    /// A net is next.
    Linked,
    /// `)` is next, which ends a link.
    Ended,
    /// `,` or `)` is next.
    More,
    /// `;` is next, which ends the instance.
    Closed,
}

/// Where an instance goes on, if it does so, where no memory was wanting.
type Onward = Result<Option<Joint>, OutOfMemory>;

/// What the lexemes so far say of a module alone, or of modules one after another.
#[derive(Drop)]
pub struct Designer {
    pub scope: Scope,
    /// The modules that are read whole, before the one that is being read.
    pub below: Modules,
    /// The instances in the module that is being read.
    pub instances: Instances,
    pub joint: Joint,
    /// What was read of an instance.
    pub begun: Instance,
    /// The port of a link.
    pub port: Text,
    pub reader: Reader,
}

/// The joint, if the lexeme is this mark.
fn expected(mark: &str, lexeme: &[u8], joint: Joint) -> Option<Joint>
    ensures { (designer : Designer) → gathered_next designer result
        ≡ expect_joint mark.now lexeme.now (gathered designer)
        (joint_seen designer.begun designer.port joint) }
{
    if is(lexeme, mark) { Some(joint) } else { None }
}

/// An instance of which nothing was read.
fn unread(alloc: Global) -> Instance
    ensures { result ≡ record { of = []; name = []; links = [] } }
{
    Instance {
        of: Text::new(),
        name: Text::new(),
        links: Links::new(alloc),
    }
}

impl Designer {
    /// Before the first lexeme of a text of at most so many items, instances counted.
    pub fn new(alloc: Global, scope: Scope, most: usize) -> Designer
        ensures { gathered result ≡ first_sketch scope most }
    {
        Designer {
            scope,
            below: Modules::new(alloc),
            instances: Instances::new(alloc),
            joint: Joint::Outside,
            begun: unread(alloc),
            port: Text::new(),
            reader: Reader::new(alloc, most),
        }
    }

    /// The design, where it is read whole.
    pub fn finish(self) -> Result<Option<Design>, OutOfMemory>
        ensures { IfOk result (λ design. design ≡ finish_design (gathered self)) }
    {
        let Designer {
            scope: _,
            below: mut modules,
            instances,
            joint,
            begun,
            port,
            reader,
        } = self;
        drop(begun);
        drop(port);
        match (joint, reader.finish()) {
            (Joint::Outside, Some(module)) => {
                modules.push(module)?;
                Ok(Some(Design { modules, instances }))
            }
            _ => Ok(None),
        }
    }

    /// The module alone, where it is read whole.
    pub fn finish_alone(self) -> Option<Module>
        ensures { result ≡ finish (seen self.reader) }
    {
        let Designer {
            scope: _,
            below,
            instances,
            joint: _,
            begun,
            port,
            reader,
        } = self;
        drop(below);
        drop(instances);
        drop(begun);
        drop(port);
        reader.finish()
    }

    /// Reads the next lexeme. `false` where no text goes on so; the designer is of no further use then.
    #[tactic(auto, unfolding(crate::specs::inner::Designs::sketch_step))]
    pub fn step(&mut self, lexeme: &[u8]) -> Result<bool, OutOfMemory>
        ensures { IfOk result (λ said. told said (gathered self.new)
            ≡ sketch_step (gathered self.old) lexeme.now) }
    {
        match self.scope {
            Scope::Alone => self.reader.step(lexeme),
            Scope::Together => match self.joint {
                Joint::Outside => self.outside(lexeme),
                _ => self.inside(lexeme),
            },
        }
    }

    /// Reads a lexeme that stands in no instance.
    #[tactic(auto, unfolding(crate::specs::inner::Designs::outside_step))]
    fn outside(&mut self, lexeme: &[u8]) -> Result<bool, OutOfMemory>
        requires { self.old.joint ≡ Outside }
        ensures { IfOk result (λ said. told said (gathered self.new)
            ≡ outside_step (gathered self.old) (gathered self.old).parser.place
            (kind_of lexeme.now) lexeme.now) }
    {
        match self.reader.place {
            Place::Items => {
                if is_name(lexeme) {
                    self.begin(lexeme)
                } else {
                    self.reader.step(lexeme)
                }
            }
            Place::Done => {
                if self.instances.as_slice().is_empty() {
                    self.next_module()?;
                    self.reader.step(lexeme)
                } else {
                    Ok(false)
                }
            }
            _ => self.reader.step(lexeme),
        }
    }

    /// Begins an instance with the name of its module, if there is room for one.
    #[tactic(auto, unfolding(crate::specs::inner::Designs::begin_instance))]
    fn begin(&mut self, lexeme: &[u8]) -> Result<bool, OutOfMemory>
        requires { self.old.reader.place ≡ Items }
        ensures { IfOk result (λ said. told said (gathered self.new)
            ≡ begin_instance (gathered self.old) self.old.reader.draft lexeme.now) }
    {
        if self.reader.draft.items.as_slice().len() >= self.reader.draft.most {
            return Ok(false);
        }
        self.begun.of = Text::copy(self.reader.alloc, lexeme)?;
        self.reader.draft.most -= 1;
        self.joint = Joint::Named;
        Ok(true)
    }

    /// Puts the module that is read whole to those before it, and begins the next.
    fn next_module(&mut self) -> Result<(), OutOfMemory>
        requires { self.old.reader.place ≡ Done }
        ensures { IfOk result (λ _. gathered self.new
            ≡ over_next (gathered self.old) self.old.reader.draft) }
    {
        let items = self.reader.draft.items.as_slice().len();
        let left = self.reader.draft.most.saturating_sub(items);
        let fresh = Reader::new(self.reader.alloc, left);
        let whole = mem::replace(&mut self.reader, fresh);
        if let Some(module) = whole.finish() {
            self.below.push(module)?;
        }
        Ok(())
    }

    /// Reads a lexeme of an instance.
    fn inside(&mut self, lexeme: &[u8]) -> Result<bool, OutOfMemory>
        ensures { IfOk result (λ said. told said (gathered self.new)
            ≡ inside_step (gathered self.old) (gathered self.old).joint (kind_of lexeme.now)
            lexeme.now) }
    {
        match self.next(lexeme)? {
            None => Ok(false),
            Some(joint) => {
                self.joint = joint;
                Ok(true)
            }
        }
    }

    /// Where an instance goes on after a lexeme.
    #[tactic(auto, unfolding(crate::specs::inner::Designs::inside_step))]
    fn next(&mut self, lexeme: &[u8]) -> Onward
        ensures { IfOk result (λ next. gathered_next self.new next
            ≡ inside_step (gathered self.old) (gathered self.old).joint (kind_of lexeme.now)
            lexeme.now) }
    {
        match self.joint {
            Joint::Outside => Ok(None),
            Joint::Named => self.named(lexeme),
            Joint::Opened => Ok(expected("(", lexeme, Joint::Dotted)),
            Joint::Dotted => Ok(expected(".", lexeme, Joint::Ported)),
            Joint::Ported => self.ported(lexeme),
            Joint::Begun => Ok(expected("(", lexeme, Joint::Linked)),
            Joint::Linked => self.linked(lexeme),
            Joint::Ended => Ok(expected(")", lexeme, Joint::More)),
            Joint::More => {
                if is(lexeme, ",") {
                    Ok(Some(Joint::Dotted))
                } else {
                    Ok(expected(")", lexeme, Joint::Closed))
                }
            }
            Joint::Closed => self.closed(lexeme),
        }
    }

    /// The name of the instance.
    #[tactic(auto, unfolding(crate::specs::inner::Designs::inside_step))]
    fn named(&mut self, lexeme: &[u8]) -> Onward
        ensures { IfOk result (λ next. gathered_next self.new next
            ≡ inside_step (gathered self.old) (joint_seen self.old.begun self.old.port Named) (kind_of lexeme.now)
            lexeme.now) }
    {
        if !is_name(lexeme) {
            return Ok(None);
        }
        self.begun.name = Text::copy(self.reader.alloc, lexeme)?;
        self.begun.links = Links::new(self.reader.alloc);
        Ok(Some(Joint::Opened))
    }

    /// The port of a link.
    #[tactic(auto, unfolding(crate::specs::inner::Designs::inside_step))]
    fn ported(&mut self, lexeme: &[u8]) -> Onward
        ensures { IfOk result (λ next. gathered_next self.new next
            ≡ inside_step (gathered self.old) (joint_seen self.old.begun self.old.port Ported) (kind_of lexeme.now)
            lexeme.now) }
    {
        if !is_name(lexeme) {
            return Ok(None);
        }
        self.port = Text::copy(self.reader.alloc, lexeme)?;
        Ok(Some(Joint::Begun))
    }

    /// The net of a link.
    #[tactic(auto, unfolding(crate::specs::inner::Designs::inside_step))]
    fn linked(&mut self, lexeme: &[u8]) -> Onward
        ensures { IfOk result (λ next. gathered_next self.new next
            ≡ inside_step (gathered self.old) (joint_seen self.old.begun self.old.port Linked) (kind_of lexeme.now)
            lexeme.now) }
    {
        if !is_name(lexeme) {
            return Ok(None);
        }
        let net = Text::copy(self.reader.alloc, lexeme)?;
        let port = mem::replace(&mut self.port, Text::new());
        self.begun.links.push(Link { port, net })?;
        Ok(Some(Joint::Ended))
    }

    /// The end of an instance.
    #[tactic(auto, unfolding(crate::specs::inner::Designs::inside_step))]
    fn closed(&mut self, lexeme: &[u8]) -> Onward
        ensures { IfOk result (λ next. gathered_next self.new next
            ≡ inside_step (gathered self.old) (joint_seen self.old.begun self.old.port Closed) (kind_of lexeme.now)
            lexeme.now) }
    {
        if !is(lexeme, ";") {
            return Ok(None);
        }
        let fresh = unread(self.reader.alloc);
        let whole = mem::replace(&mut self.begun, fresh);
        self.instances.push(whole)?;
        Ok(Some(Joint::Outside))
    }
}
