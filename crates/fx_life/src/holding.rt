//! Renders that hold their gates (OpenFX 1.4, kOfxImageEffectPluginRenderThreadSafety).
ghost use Rattle.std.specs.Prelude.{◌≡◌, ◌≢◌, ◌<◌, ◌+◌, ◌^◌, None, true, OnOk, OnErr};
ghost use Rattle.fx_base.specs.Bounds.{none};
ghost use Rattle.fx_base.specs.Rect.{IsFrame};
ghost use Rattle.fx_image.specs.Stored.{SameFrame};
ghost use Rattle.fx_effect.specs.Meaning.{rendered};
ghost use Rattle.fx_life.specs.Posts.{IsGateOf, MayPlay, Plays};
ghost use Rattle.fx_life.specs.Filled.{IsFilled};

use crate::Life;
use fx_base::Memory;
use fx_core::Ticket;
use fx_effect::{Catalogue, Inputs, Values};
use fx_gate::{GateSeat, Gates, Hold};
use fx_image::Image;
use std::alloc::Global;
use std::rt::Clock;
use std::sync::Wait;

impl<E: Catalogue + Drop> Life<E> {
    /// Renders the whole of an image by the instance of a node that uses an effect. The gate that `gate_of` tells is
    /// waited for, held meanwhile and released then, at `Memory` too. The seat holds no gate before and after, and
    /// there are gates for all plug-ins and for the node. Where memory is wanting the pixels of the image are any.
    pub fn render_image<R: Wait + Clock>(
        &self,
        rt: &R,
        alloc: Global,
        gates: &Gates,
        seat: &mut GateSeat,
        node: u32,
        values: &Values,
        inputs: &Inputs<'_>,
        ticket: &mut Ticket,
        image: &mut Image,
    ) -> Result<(), Memory>
        requires row { seat.old.row ≡ gates.now }
        requires free { seat.old.turn ≡ None }
        requires gates { 64 + node < gates.now.gates }
        requires small { node < 2 ^ 31 }
        requires frame { IsFrame values.now.frame }
        requires window { image.old.rect ≢ none }
        requires may { let old = image.old in
            MayPlay E.number_of E.meaning self.now node values.now inputs.now old.depth old.components }
        ensures filled { (effect : E) → Plays E.number_of self.now node effect →
            let pixels = rendered (E.meaning effect) values.now inputs.now image.old.depth image.old.components in
            OnOk result (IsFilled image.old image.new pixels) }
        ensures same_frame { SameFrame image.old image.new }
        ensures stamped { OnOk result (ticket.new ≡ record ticket.old { stamped = true }) }
        ensures unstamped { OnErr result (ticket.new ≡ ticket.old) }
        ensures seat { seat.new ≡ seat.old }
    {
        let Some(gate) = self.gate_of(node) else {
            let mut hold = Gates::free(alloc);
            return self.render_whole(alloc, node, values, inputs, &mut hold, ticket, image);
        };
        let mut hold = gates.hold(rt, seat, gate);
        let outcome = self.render_whole(alloc, node, values, inputs, &mut hold, ticket, image);
        gates.release(seat, hold);
        outcome
    }

    // The same under a hold of that gate.
    fn render_whole(
        &self,
        alloc: Global,
        node: u32,
        values: &Values,
        inputs: &Inputs<'_>,
        hold: &mut Hold,
        ticket: &mut Ticket,
        image: &mut Image,
    ) -> Result<(), Memory>
        requires gate { IsGateOf E.meaning E.number_of self.now node hold.old.gate }
        requires frame { IsFrame values.now.frame }
        requires window { image.old.rect ≢ none }
        requires may { let old = image.old in
            MayPlay E.number_of E.meaning self.now node values.now inputs.now old.depth old.components }
        ensures filled { (effect : E) → Plays E.number_of self.now node effect →
            let pixels = rendered (E.meaning effect) values.now inputs.now image.old.depth image.old.components in
            OnOk result (IsFilled image.old image.new pixels) }
        ensures same_frame { SameFrame image.old image.new }
        ensures stamped { OnOk result (ticket.new ≡ record ticket.old { stamped = true }) }
        ensures unstamped { OnErr result (ticket.new ≡ ticket.old) }
        ensures same_hold { hold.new.gate ≡ hold.old.gate }
    {
        let mut part = image.part(image.rect());
        self.render(alloc, node, values, inputs, hold, ticket, &mut part)
    }
}
