//! What follows from the definitions alone. The functions do nothing: what they say is in their contracts.

ghost use Rattle.std.specs.Prelude.{List};
ghost use Rattle.ioa_tree.specs.Components.{Component};
ghost use Rattle.ioa_compile.specs.Subjects.{State, Subject};
ghost use Rattle.ioa_picture.specs.Charts.{DrawsEach};
ghost use Rattle.ioa_picture.specs.Edges.{GivenArePassed, TakersTake};
ghost use Rattle.ioa_picture.specs.Labels.{ActionsAreLabels, EndsAreLabels, NamesAreLabels};

/// The edges of a graph are the actions that pass between components: an output has an edge to just those components that take an action of
/// its name which its own component performs, and an input none from the environment just where a component performs such an action that it takes.
pub fn edges_are_actions()
    ensures outputs { TakersTake }
    ensures inputs { GivenArePassed }
{}

/// No label of a picture needs an escape: names, actions and ends are spelled without any sign that has a meaning in the form of a chart or, in
/// quotes, in that of a graph.
pub fn labels_need_no_escape()
    ensures names { NamesAreLabels }
    ensures actions { ActionsAreLabels }
    ensures ends { EndsAreLabels }
{}

/// A chart from which nothing is left out has each entry of the log once, in order, and then its end; by whatever states the components have.
pub fn whole_charts_draw_each_entry()
    ensures { (s : Subject) (ps : List (Component (State s))) → DrawsEach ps }
{}
