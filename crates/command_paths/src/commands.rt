//! Each command with what its paths lead to, from left to right.
ghost use Rattle.std.specs.Prelude.{◌≡◌, ℕ};
ghost use Rattle.hac_model.specs.Run.Answers.{Answers, AnswersSeen};
ghost use Rattle.hac_model.specs.Run.Resolving.{item_and_dir, resolve, resolved, resolved_for};

use crate::resolving::Resolver;
use hac_model::{Command, Deny, Line, Name, Number, PathWord, RawQuery, Refusal, Resolved, Text};
use kept_state::KeptState;
use std::alloc::Global;

/// The command of a line with what its paths lead to from where its session stands, or the first
/// cause against it that lies in them. Its text moves into the command, and isn't copied.
pub fn followed(alloc: Global, kept: &KeptState, line: Line) -> Result<Resolved, Deny>
    ensures { Answers result (resolve kept.now.state line) }
{
    let base = kept.stands_in(&line.session);
    let resolver = Resolver {
        alloc,
        tree: kept.tree(),
        base,
    };
    resolver.resolve(line.session, line.command)
}

impl<'a> Resolver<'a> {
    /// The command of a session with what its paths lead to, or the first cause against it that lies
    /// in them.
    fn resolve(&self, session: Name, command: Command) -> Result<Resolved, Deny>
        ensures { Answers result (resolved_for self.now.state session self.now.base command) }
    {
        match command {
            Command::Cd { path } => self.cd(session, &path),
            other => self.follow(other),
        }
    }

    /// The same for any command but `cd`, which needs its session.
    fn follow(&self, command: Command) -> Result<Resolved, Deny>
        ensures { Answers result (resolved self.now.state self.now.base command) }
    {
        match command {
            Command::Mkdir { path } => self.mkdir(&path),
            Command::Rmdir { path } => self.rmdir(&path),
            Command::Write { path, text } => self.write(&path, text),
            Command::Cat { path } => self.cat(&path),
            Command::Ls { path } => self.ls(&path),
            Command::Pwd => Ok(Resolved::Pwd { dir: self.base }),
            Command::Mv { from, to } => self.mv(&from, &to),
            Command::Rm { path } => self.rm(&path),
            Command::Ln { target, path } => self.ln(target, &path),
            Command::Readlink { path } => self.readlink(&path),
            Command::Smkdir { path, query } => self.smkdir(&path, query),
            Command::Setq { path, query } => self.setq(&path, query),
            Command::Unq { path } => self.unq(&path),
            Command::Query { path } => self.query(&path),
            Command::Sls { path } => self.sls(&path),
            Command::Sln { item, dir } => self.sln(&item, &dir),
            Command::Srm { item, dir } => self.srm(&item, &dir),
            Command::Sforget { item, dir } => self.sforget(&item, &dir),
            Command::Find { query } => self.find(query),
            Command::Smount { path, space } => self.smount(&path, space),
            Command::Ssync { path } => self.ssync(&path),
            Command::Sumount { path } => self.sumount(&path),
            Command::Index => Ok(Resolved::Index),
            Command::Tick { steps } => Ok(Resolved::Tick { steps }),
            Command::Counts => Ok(Resolved::Counts),
            Command::Checkpoint => Ok(Resolved::Checkpoint),
            _ => Err(Deny::Refused(Refusal::BadLine)),
        }
    }

    /// `mkdir PATH`.
    fn mkdir(&self, path: &PathWord) -> Result<Resolved, Deny>
        ensures { Answers result (resolved self.now.state self.now.base (Command.Mkdir path.now)) }
    {
        let place = self.slot(path, true)?;
        Ok(Resolved::Mkdir { place })
    }

    /// `rmdir PATH`.
    fn rmdir(&self, path: &PathWord) -> Result<Resolved, Deny>
        ensures { Answers result (resolved self.now.state self.now.base (Command.Rmdir path.now)) }
    {
        let dir = self.holder(path)?;
        Ok(Resolved::Rmdir { dir })
    }

    /// `write PATH TEXT`.
    fn write(&self, path: &PathWord, text: Text) -> Result<Resolved, Deny>
        ensures { Answers result (resolved self.now.state self.now.base (Command.Write path.now text)) }
    {
        let place = self.slot(path, true)?;
        Ok(Resolved::Write { place, text })
    }

    /// `cat PATH`.
    fn cat(&self, path: &PathWord) -> Result<Resolved, Deny>
        ensures { Answers result (resolved self.now.state self.now.base (Command.Cat path.now)) }
    {
        let entry = self.entry(path, true)?;
        Ok(Resolved::Cat { entry })
    }

    /// `ls` with a path or without.
    fn ls(&self, path: &Option<PathWord>) -> Result<Resolved, Deny>
        ensures { Answers result (resolved self.now.state self.now.base (Command.Ls path.now)) }
    {
        let dir = self.listed_directory(path)?;
        Ok(Resolved::Ls { dir })
    }

    /// `cd` with a path or without.
    fn cd(&self, session: Name, path: &Option<PathWord>) -> Result<Resolved, Deny>
        ensures { Answers result (resolved_for self.now.state session self.now.base (Command.Cd path.now)) }
    {
        match self.directory_or_root(path) {
            Ok(dir) => Ok(Resolved::Cd { session, dir }),
            Err(deny) => Err(deny),
        }
    }

    /// `mv FROM TO`.
    fn mv(&self, from: &PathWord, to: &PathWord) -> Result<Resolved, Deny>
        ensures { Answers result (resolved self.now.state self.now.base (Command.Mv from.now to.now)) }
    {
        let entry = self.own_entry(from, false)?;
        let place = self.slot(to, false)?;
        Ok(Resolved::Mv { entry, place })
    }

    /// `rm PATH`.
    fn rm(&self, path: &PathWord) -> Result<Resolved, Deny>
        ensures { Answers result (resolved self.now.state self.now.base (Command.Rm path.now)) }
    {
        let entry = self.own_entry(path, false)?;
        Ok(Resolved::Rm { entry })
    }

    /// `ln TARGET PATH`.
    fn ln(&self, target: Text, path: &PathWord) -> Result<Resolved, Deny>
        ensures { Answers result (resolved self.now.state self.now.base (Command.Ln target path.now)) }
    {
        let place = self.slot(path, false)?;
        Ok(Resolved::Ln { place, target })
    }

    /// `readlink PATH`.
    fn readlink(&self, path: &PathWord) -> Result<Resolved, Deny>
        ensures { Answers result (resolved self.now.state self.now.base (Command.Readlink path.now)) }
    {
        let entry = self.entry(path, false)?;
        Ok(Resolved::Readlink { entry })
    }

    /// `smkdir PATH QUERY`.
    fn smkdir(&self, path: &PathWord, query: RawQuery) -> Result<Resolved, Deny>
        ensures { Answers result (resolved self.now.state self.now.base (Command.Smkdir path.now query)) }
    {
        let place = self.slot(path, true)?;
        match self.numbered_query(query) {
            Ok(query) => Ok(Resolved::Smkdir { place, query }),
            Err(deny) => Err(deny),
        }
    }

    /// `setq PATH QUERY`.
    fn setq(&self, path: &PathWord, query: RawQuery) -> Result<Resolved, Deny>
        ensures { Answers result (resolved self.now.state self.now.base (Command.Setq path.now query)) }
    {
        let dir = self.holder(path)?;
        match self.numbered_query(query) {
            Ok(query) => Ok(Resolved::Setq { dir, query }),
            Err(deny) => Err(deny),
        }
    }

    /// `unq PATH`.
    fn unq(&self, path: &PathWord) -> Result<Resolved, Deny>
        ensures { Answers result (resolved self.now.state self.now.base (Command.Unq path.now)) }
    {
        let dir = self.directory(path)?;
        Ok(Resolved::Unq { dir })
    }

    /// `query PATH`.
    fn query(&self, path: &PathWord) -> Result<Resolved, Deny>
        ensures { Answers result (resolved self.now.state self.now.base (Command.Query path.now)) }
    {
        let dir = self.directory(path)?;
        Ok(Resolved::Query { dir })
    }

    /// `sls` with a path or without.
    fn sls(&self, path: &Option<PathWord>) -> Result<Resolved, Deny>
        ensures { Answers result (resolved self.now.state self.now.base (Command.Sls path.now)) }
    {
        let dir = self.listed_directory(path)?;
        Ok(Resolved::Sls { dir })
    }

    /// `sln ITEM DIR`.
    fn sln(&self, item: &PathWord, dir: &PathWord) -> Result<Resolved, Deny>
        ensures { Answers result (resolved self.now.state self.now.base (Command.Sln item.now dir.now)) }
    {
        let (item, dir) = self.item_and_directory(item, dir)?;
        Ok(Resolved::Sln { item, dir })
    }

    /// `srm ITEM DIR`.
    fn srm(&self, item: &PathWord, dir: &PathWord) -> Result<Resolved, Deny>
        ensures { Answers result (resolved self.now.state self.now.base (Command.Srm item.now dir.now)) }
    {
        let (item, dir) = self.item_and_directory(item, dir)?;
        Ok(Resolved::Srm { item, dir })
    }

    /// `sforget ITEM DIR`.
    fn sforget(&self, item: &PathWord, dir: &PathWord) -> Result<Resolved, Deny>
        ensures { Answers result (resolved self.now.state self.now.base (Command.Sforget item.now dir.now)) }
    {
        let (item, dir) = self.item_and_directory(item, dir)?;
        Ok(Resolved::Sforget { item, dir })
    }

    /// The item and the directory to which two path words lead, whatever is made of them.
    fn item_and_directory(&self, item: &PathWord, dir: &PathWord) -> Result<(Number, Number), Deny>
        ensures { (make : ℕ → ℕ → Resolved) → AnswersSeen (λ found. make found.0 found.1) result
            (item_and_dir make self.now.state self.now.base item.now dir.now) }
    {
        let item = self.entry(item, true)?;
        let dir = self.directory(dir)?;
        Ok((item, dir))
    }

    /// `find QUERY`.
    fn find(&self, query: RawQuery) -> Result<Resolved, Deny>
        ensures { Answers result (resolved self.now.state self.now.base (Command.Find query)) }
    {
        let query = self.numbered_query(query)?;
        Ok(Resolved::Find { query })
    }

    /// `smount PATH SPACE`.
    fn smount(&self, path: &PathWord, space: Name) -> Result<Resolved, Deny>
        ensures { Answers result (resolved self.now.state self.now.base (Command.Smount path.now space)) }
    {
        let place = self.slot(path, true)?;
        Ok(Resolved::Smount { place, space })
    }

    /// `ssync PATH`.
    fn ssync(&self, path: &PathWord) -> Result<Resolved, Deny>
        ensures { Answers result (resolved self.now.state self.now.base (Command.Ssync path.now)) }
    {
        let mount = self.directory(path)?;
        Ok(Resolved::Ssync { mount })
    }

    /// `sumount PATH`.
    fn sumount(&self, path: &PathWord) -> Result<Resolved, Deny>
        ensures { Answers result (resolved self.now.state self.now.base (Command.Sumount path.now)) }
    {
        let mount = self.directory(path)?;
        Ok(Resolved::Sumount { mount })
    }
}
