ghost use Rattle.std.specs.Prelude.{◌≡◌, ◌<◌, ◌≤◌, ◌++◌, [], ◌∷◌, All, IfOk, OnErr, OnOk, length, replicate, slice_set};
ghost use Rattle.tab_core.specs.declared.TheConstants.{MAX_CORES};
ghost use Rattle.table_form.specs.Planning.Demand.{Fits};
ghost use Rattle.table_form.specs.Planning.Jobs.{jobs_of};
ghost use Rattle.table_form.specs.Planning.Windows.{DistinctVcpus};
ghost use Rattle.cd_split.specs.Cores.{HaveRoomFor, KeepCores, LackVcpu, pieces_on};

use std::alloc::Global;
use std::marker::Model;
use tab_core::{CoreNo, NoMemory, Piece, Pieces};

/// The pieces on each core, by core number. Contracts see the list of the cores' lists.
///
/// Each piece is on its own core, and the pieces of a core are of distinct vCPUs and fit.
#[derive(Drop)]
pub struct CorePieces {
    cores: Vec<Pieces>,
}

impl Model for CorePieces {
    ghost use Rattle.std.specs.Prelude.{List};
    ghost use Rattle.tab_core.specs.declared.piece.Piece.{Piece};
    ghost use Rattle.cd_split.specs.Cores.{KeepCores};

    ghost Value = { List (List Piece) };

    ghost view = { λ pieces. pieces.cores.items };

    ghost invariant = { λ pieces. KeepCores pieces.cores.items };
}

impl CorePieces {
    /// The pieces of each core, by core number: those of a core are on it, of distinct vCPUs, and fit.
    pub fn of(items: Vec<Pieces>) -> CorePieces
        requires { KeepCores items.items }
        ensures { result ≡ items.items }
    {
        CorePieces { cores: items }
    }

    /// So many cores, at most 32, none with a piece. Fails only when memory runs out.
    pub fn empty(alloc: Global, cores: u32) -> Result<CorePieces, NoMemory>
        requires { cores ≤ MAX_CORES }
        ensures { IfOk result (λ pieces. pieces ≡ replicate cores []) }
    {
        let mut lists = Vec::new(alloc);
        for _ in 0..cores {
            lists.push(Pieces::of(Vec::new(alloc)))?;
        }
        Ok(CorePieces { cores: lists })
    }

    /// The list of each core, by core number.
    pub fn items(&self) -> &[Pieces]
        ensures same { result.now ≡ self.now }
        ensures kept { KeepCores self.now }
    {
        &self.cores
    }

    /// How many cores there are, at most 32.
    pub fn cores(&self) -> u32
        ensures count { result ≡ length self.now }
        ensures few { result ≤ MAX_CORES }
    {
        self.cores.len() as u32
    }

    /// The pieces on the core, which are of distinct vCPUs and fit.
    pub fn of_core(&self, core: CoreNo) -> &[Piece]
        requires { core < length self.now }
        ensures same { result.now ≡ pieces_on self.now core }
        ensures own { All (λ p. p.core ≡ core) result.now }
        ensures distinct { DistinctVcpus result.now }
        ensures fit { Fits (jobs_of result.now) }
    {
        self.cores[core.index()].items()
    }

    /// Adds a piece after the others of its core, whose vCPU has none there yet, and beside which it
    /// fits.
    ///
    /// Fails only when memory runs out, and leaves the pieces as they were then.
    pub fn add(&mut self, piece: Piece) -> Result<(), NoMemory>
        requires there { piece.core < length self.old }
        requires new { LackVcpu piece.vcpu (pieces_on self.old piece.core) }
        requires room { HaveRoomFor (pieces_on self.old piece.core) piece }
        ensures ok { OnOk result (self.new ≡ slice_set self.old piece.core
            (pieces_on self.old piece.core ++ piece ∷ [])) }
        ensures err { OnErr result (self.new ≡ self.old) }
    {
        self.cores[piece.core.index()].push(piece)
    }
}
