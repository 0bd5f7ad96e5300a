//! What every effect promises.
ghost use Rattle.std.specs.Prelude.{◌≡◌, ◌≢◌, ◌<◌, ℕ, ℤ, [], ◌∷◌, List, true, IfOk, OnOk, OnErr, IfSome, None, Option};
ghost use Rattle.std.specs.List.{Contains};
ghost use Rattle.fx_base.specs.Bounds.{Bounds, none};
ghost use Rattle.fx_base.specs.Rect.{IsFrame};
ghost use Rattle.fx_image.specs.Part.{IsPart, SamePart, IsWritten};
ghost use Rattle.fx_props.specs.declared.names.TheConstants.{REGION, CLIP_DEPTH, CLIP_COMPONENTS, CLIP_REGION, CLIP_FRAMES};
ghost use Rattle.fx_props.specs.declared.value.PropKind.TheVariants as kind;
ghost use Rattle.fx_props.specs.Entries.{IsBlank, AwaitEntries, Wrote};
ghost use Rattle.fx_effect.specs.declared.action.Context.{Context as Contexts};
ghost use Rattle.fx_effect.specs.declared.action.Reply.TheVariants as reply;
ghost use Rattle.fx_effect.specs.Shape.{IsLawfulIn};
ghost use Rattle.fx_effect.specs.Meaning.{Meaning, rendered};
ghost use Rattle.fx_effect.specs.Described.{description, DescribeClips};
ghost use Rattle.fx_effect.specs.Asked.{IsAsked, IsWindow, AsksRegion, AsksWindow, HasTime, HasRegion, HasWindow, AreRegions};
ghost use Rattle.fx_effect.specs.Asked.{AwaitsClips, AsksSequence, AnswersRegion, AnswersInterest, AnswersFrames, MayRender};
ghost use Rattle.fx_effect.specs.Laws.{Laws};

use crate::{Context, Identity, Inputs, Reply, Safety, Values};
use fx_base::{Memory, Rect};
use fx_core::Ticket;
use fx_gate::Hold;
use fx_image::Part;
use fx_params::ParamDef;
use fx_props::PropSet;
use std::alloc::Global;

/// An image effect. Its meaning says what it describes itself as, of each pixel what it reads and what
/// it is, and what it answers to the actions. The laws tie the answers to the pixels.
pub trait ImageEffect {
    ghost meaning: { Self → Meaning };

    /// Makes ready what all instances share (kOfxActionLoad).
    fn load(&self, _alloc: Global) -> Result<Reply, Memory> {
        Ok(Reply::Default)
    }

    /// Frees what `load` made ready (kOfxActionUnload).
    fn unload(&self) -> Reply {
        Reply::Default
    }

    /// Writes what the effect is: its label, contexts, depths, whether it reads other frames, whether it
    /// renders tiles, and its thread safety (kOfxActionDescribe). At want of memory the set holds
    /// anything.
    fn describe(&self, alloc: Global, descriptor: &mut PropSet) -> Result<Reply, Memory>
        requires { AwaitEntries descriptor.old (description (meaning self.now).shape) }
        ensures never_default { IfOk result (λ r. r ≡ reply.Ok) }
        ensures written { let entries = description (meaning self.now).shape in
            OnOk result (Wrote entries descriptor.old descriptor.new) };

    /// Puts a set for each input clip of the context, and the definitions of its parameters, both in
    /// order (kOfxImageEffectActionDescribeInContext). At want of memory the lists hold anything.
    fn describe_in_context(
        &self,
        alloc: Global,
        context: Context,
        clips: &mut Vec<PropSet>,
        params: &mut Vec<ParamDef>,
    ) -> Result<Reply, Memory>
        requires supported { Contains (meaning self.now).shape.contexts context }
        requires no_clips { clips.old.items ≡ [] }
        requires no_params { params.old.items ≡ [] }
        ensures never_default { IfOk result (λ r. r ≡ reply.Ok) }
        ensures clips { OnOk result (DescribeClips (meaning self.now).shape context clips.new.items) }
        ensures params { OnOk result (params.new.items ≡ (meaning self.now).shape.params context) };

    /// Makes ready what an instance needs (kOfxActionCreateInstance).
    fn create_instance(&self, _alloc: Global) -> Result<Reply, Memory> {
        Ok(Reply::Default)
    }

    /// Frees what an instance needed (kOfxActionDestroyInstance).
    fn destroy_instance(&self) -> Reply {
        Reply::Default
    }

    /// Leaves the depths and components of the clips to the host
    /// (kOfxImageEffectActionGetClipPreferences).
    fn get_clip_preferences(
        &self,
        _alloc: Global,
        values: &Values,
        out_args: &mut PropSet,
    ) -> Result<Reply, Memory>
        requires depths { let s = (meaning self.now).shape in
            AwaitsClips s values.now CLIP_DEPTH.now kind.Text out_args.old }
        requires components { let s = (meaning self.now).shape in
            AwaitsClips s values.now CLIP_COMPONENTS.now kind.Text out_args.old }
        requires frame { IsFrame values.now.frame }
        ensures default { IfOk result (λ r. r ≡ reply.Default) }
        ensures stays { OnOk result (out_args.new ≡ out_args.old) }
    {
        Ok(Reply::Default)
    }

    /// Where the output may be anything but zero, in pixels, by the regions of the input clips, each of
    /// which is the hull over the frames that are needed of the clip
    /// (kOfxImageEffectActionGetRegionOfDefinition).
    fn get_region_of_definition(
        &self,
        alloc: Global,
        values: &Values,
        regions: &[Rect],
        in_args: &PropSet,
        out_args: &mut PropSet,
    ) -> Result<Reply, Memory>
        requires asked { IsAsked (meaning self.now).shape values.now in_args.now }
        requires regions { AreRegions values.now regions.now }
        requires blank { IsBlank out_args.old kind.Fix REGION.now }
        ensures { let m = meaning self.now in (context : Contexts) → IsLawfulIn m.shape context values.now
            → IfOk result (λ r. AnswersRegion m values.now regions.now context out_args.old out_args.new r) };

    /// Which region of each input clip is needed for the region that is asked for
    /// (kOfxImageEffectActionGetRegionsOfInterest).
    fn get_regions_of_interest(
        &self,
        alloc: Global,
        values: &Values,
        in_args: &PropSet,
        out_args: &mut PropSet,
    ) -> Result<Reply, Memory>
        requires asked { IsAsked (meaning self.now).shape values.now in_args.now }
        requires region { AsksRegion in_args.now }
        requires blank { let s = (meaning self.now).shape in
            AwaitsClips s values.now CLIP_REGION.now kind.Fix out_args.old }
        ensures { let m = meaning self.now in (context : Contexts) (region : Bounds)
            → IsLawfulIn m.shape context values.now → IsWindow region → HasRegion in_args.now region
            → IfOk result (λ r. AnswersInterest m values.now region context out_args.old out_args.new r) };

    /// Which frames of each input clip are needed (kOfxImageEffectActionGetFramesNeeded).
    fn get_frames_needed(
        &self,
        alloc: Global,
        values: &Values,
        in_args: &PropSet,
        out_args: &mut PropSet,
    ) -> Result<Reply, Memory>
        requires asked { IsAsked (meaning self.now).shape values.now in_args.now }
        requires blank { let s = (meaning self.now).shape in
            AwaitsClips s values.now CLIP_FRAMES.now kind.Fix out_args.old }
        ensures { let m = meaning self.now in (context : Contexts) → IsLawfulIn m.shape context values.now
            → IfOk result (λ r. AnswersFrames m values.now context out_args.old out_args.new r) };

    /// Whether the output over the window is that of an input clip at a frame
    /// (kOfxImageEffectActionIsIdentity).
    fn is_identity(&self, values: &Values, in_args: &PropSet) -> Identity
        requires asked { IsAsked (meaning self.now).shape values.now in_args.now }
        requires window { AsksWindow in_args.now }
        ensures { (window : Bounds) → IsWindow window → HasWindow in_args.now window
            → result ≡ (meaning self.now).same values.now window };

    /// Makes ready for the renders of a sequence of frames
    /// (kOfxImageEffectActionBeginSequenceRender).
    fn begin_sequence_render(&self, _alloc: Global, in_args: &PropSet) -> Result<Reply, Memory>
        requires { AsksSequence in_args.now }
    {
        Ok(Reply::Default)
    }

    /// Renders the window that is the part's rectangle, and stamps the ticket: each pixel there is what
    /// the effect makes of the input pixels that it reads, and no other pixel of the image changes. At
    /// want of memory the ticket isn't stamped, and the pixels of the window are any
    /// (kOfxImageEffectActionRender).
    fn render(
        &self,
        alloc: Global,
        values: &Values,
        in_args: &PropSet,
        inputs: &Inputs<'_>,
        hold: &mut Hold,
        ticket: &mut Ticket,
        out: &mut Part<'_>,
    ) -> Result<(), Memory>
        requires frame { IsFrame values.now.frame }
        requires time { HasTime in_args.now values.now.frame }
        requires part { IsPart out.old }
        requires some_window { out.old.rect ≢ none }
        requires window { HasWindow in_args.now out.old.rect }
        requires may { let image = out.old.image.now in
            MayRender (meaning self.now).shape values.now inputs.now image.depth image.components }
        ensures same_part { SamePart out.old out.new }
        ensures same_hold { hold.new.gate ≡ hold.old.gate }
        ensures ok { let image = out.old.image.now in
            let pixels = rendered (meaning self.now) values.now inputs.now image.depth image.components in
            OnOk result (IsWritten out.old out.new pixels) }
        ensures stamped { OnOk result (ticket.new ≡ record ticket.old { stamped = true }) }
        ensures unstamped { OnErr result (ticket.new ≡ ticket.old) };

    /// Ends the renders of a sequence of frames (kOfxImageEffectActionEndSequenceRender).
    fn end_sequence_render(&self, in_args: &PropSet) -> Reply
        requires { AsksSequence in_args.now }
    {
        Reply::Default
    }

    ghost laws: { (e : Self) → Laws (meaning e) };
}

/// Effects that are known by name.
pub trait Catalogue: ImageEffect + Sized {
    ghost called: { Self → List ℕ };

    ghost number_of: { Self → ℕ };

    // the effect of a name
    ghost find: { List ℕ → Option Self };

    /// The effect of the name: none exactly where the catalogue has none of that name.
    fn named(name: &str) -> Option<Self>
        ensures value { result ≡ find name.now }
        ensures found { IfSome result (λ e. called e ≡ name.now) }
        ensures none { result ≡ None → (e : Self) → called e ≢ name.now };

    /// Its number, which no effect of another name has.
    fn number(&self) -> u32
        ensures value { result ≡ number_of self.now }
        ensures small { result < 64 };

    /// Its thread safety, as `describe` writes it.
    fn safety(&self) -> Safety
        ensures { result ≡ (Self.meaning self.now).shape.safety };

    /// Whether it supports tiles, as `describe` writes it.
    fn supports_tiles(&self) -> bool
        ensures { result ≡ (Self.meaning self.now).shape.tiles };

    ghost one_name: { (a b : Self) → number_of a ≡ number_of b → called a ≡ called b };

    ghost one_meaning: { (a b : Self) → number_of a ≡ number_of b → Self.meaning a ≡ Self.meaning b };

    ghost few: { (e : Self) → number_of e < 64 };
}
